// The one rule that applies to a row's dimension and key.
ghost use Rattle.std.specs.Prelude.{◌≡◌, ◌+◌, ◌*◌, ◌<◌, ◌≤◌, length};
ghost use Rattle.rules.specs.Rules.{applies, rule_for};
ghost use Rattle.rules.specs.Rows.{rules_in};
ghost use Rattle.rules.specs.Found.{First};

fn applies_to(words: &[u32], tolerances: &[f64], dimension: u32, key: u32, r: usize) -> bool
    requires { (r + 1 ≤ length tolerances.now) × (3 * length tolerances.now ≤ length words.now) }
    ensures { result ≡ applies (rules_in words.now tolerances.now) dimension key r }
{
    (words[3 * r] == dimension) & (words[3 * r + 1] <= key) & (key <= words[3 * r + 2])
}

// The first rule from `start` on that applies, and their count where none does.
fn first_rule(words: &[u32], tolerances: &[f64], dimension: u32, key: u32, start: usize) -> usize
    requires { (start ≤ length tolerances.now) × (3 * length tolerances.now ≤ length words.now) }
    ensures { First (applies (rules_in words.now tolerances.now) dimension key) (length tolerances.now) start result }
{
    for r in start..tolerances.len() {
        if applies_to(words, tolerances, dimension, key, r) {
            return r;
        }
    }
    tolerances.len()
}

// The rule that applies, where it is the only one, and else their count.
pub fn one_rule(words: &[u32], tolerances: &[f64], dimension: u32, key: u32) -> usize
    requires { 3 * length tolerances.now ≤ length words.now }
    ensures { result ≡ rule_for (rules_in words.now tolerances.now) dimension key }
{
    let r = first_rule(words, tolerances, dimension, key, 0);
    if tolerances.len() <= r {
        return tolerances.len();
    }
    let again = first_rule(words, tolerances, dimension, key, r + 1);
    if again < tolerances.len() {
        return tolerances.len();
    }
    r
}

// The same where it is known that there is one and no second: the first that applies.
pub fn only_rule(words: &[u32], tolerances: &[f64], dimension: u32, key: u32) -> usize
    requires tolerances_in_bounds { 3 * length tolerances.now ≤ length words.now }
    requires key_in_bounds { rule_for (rules_in words.now tolerances.now) dimension key < length tolerances.now }
    ensures { result ≡ rule_for (rules_in words.now tolerances.now) dimension key }
{
    first_rule(words, tolerances, dimension, key, 0)
}
