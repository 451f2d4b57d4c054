// Refusal 3 of what a solve is lent beside table and work memory.
ghost use Rattle.std.specs.Prelude.{◌≡◌, true};
ghost use Rattle.kapitsa_joint.specs.Kind.{by_kind};
ghost use Rattle.solve_by_rules.specs.Ruled.{rules_lent, residual_lent, centres_lent, beside_lent};

use kapitsa_joint::{Kind, placed_of};
use loops::wide;
use rules::rule_lengths_fit;

// Refusal 3, of the rules and of what takes each row's: true where it does not apply;
pub fn rules_lent(rows: u32, words: usize, tolerances: usize, numbers: usize) -> bool
    ensures { result ≡ rules_lent rows words tolerances numbers }
{
    rule_lengths_fit(words, tolerances) & (numbers == wide(rows))
}

// of the centres before and after,
pub fn centres_lent(bodies: u32, centres: usize, new_centres: usize) -> bool
    ensures { result ≡ centres_lent bodies centres new_centres }
{
    (centres == 3 * wide(bodies)) & (new_centres == 3 * wide(bodies))
}

// of the residual, which positions do not look at,
fn residual_lent(kind: Kind, rows: u32, given: usize) -> bool
    ensures { result ≡ by_kind kind true (residual_lent rows given) }
{
    match kind {
        Kind::Position => true,
        Kind::Velocity => given == wide(rows),
    }
}

// and of what is lent beside the table: of positions the centres, of velocities the residual and no centre.
pub fn beside_lent(
    kind: Kind,
    rows: u32,
    bodies: u32,
    centres: usize,
    new_centres: usize,
    given: usize,
) -> bool
    ensures { result ≡ beside_lent kind rows bodies centres new_centres given }
{
    residual_lent(kind, rows, given) & centres_lent(placed_of(kind, bodies), centres, new_centres)
}
