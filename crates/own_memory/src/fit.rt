// Refusal 3, of the counts, the mode and the lengths of what a caller lends. True where it does not apply.
ghost use Rattle.std.specs.Prelude.{◌≡◌};
ghost use Rattle.own_memory.specs.Job.{job_fits};

use joint_refusals::counts_fit;
use kapitsa_joint::Kind;
use solve_by_rules::{beside_lent, rules_lent};
use work_memory::table_fits;

pub fn job_fits(
    kind: Kind,
    rows: u32,
    bodies: u32,
    mode: u32,
    numbers: usize,
    words: usize,
    masses: usize,
    solution: usize,
    impulses: usize,
    centres: usize,
    new_centres: usize,
    rule_words: usize,
    rule_tolerances: usize,
    rule_numbers: usize,
    given: usize,
) -> bool
    ensures { result ≡ job_fits kind rows bodies mode numbers words masses solution impulses centres new_centres rule_words rule_tolerances rule_numbers given }
{
    rules_lent(rows, rule_words, rule_tolerances, rule_numbers)
        & beside_lent(kind, rows, bodies, centres, new_centres, given)
        & (counts_fit(rows, bodies, mode)
            & table_fits(rows, bodies, numbers, words, masses, solution, impulses))
}
