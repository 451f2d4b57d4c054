// The position solve for C: 0, or the refusal's number (3, 25, 4, 27, 28, 5 to 17).
ghost use Rattle.std.specs.Prelude.{◌≡◌, ◌&&◌, length};
ghost use Rattle.refusals.specs.Told.{told};
ghost use Rattle.rules.specs.Rows.{rules_in};
ghost use Rattle.preconditioner.specs.Mode.{mode_of};
ghost use Rattle.solve_method.specs.Position.{position_of};
ghost use Rattle.work_memory.specs.Work.{work_memory};
ghost use Rattle.work_memory.specs.Lengths.{passes3};
ghost use Rattle.solve_by_rules.specs.Ruled.{rules_lent, centres_lent};
ghost use Rattle.kapitsa_c.specs.Solving.{told_of, told_fits, SolveTold};

use pcg::solve_position_pcg_prepared;
use position_delivery::PositionPcgResult;
use refusals::Refusal;

// Refusal 3, of the slices that take the answer: true where it does not apply.
pub fn told_fits(counts: &[u32], maxima: &[f64]) -> bool
    ensures { result ≡ told_fits counts.now maxima.now }
{
    (counts.len() == 2) & (maxima.len() == 2)
}

// Count and flag, and the two maxima; nothing where the answer is a refusal.
pub fn tell(
    answer: Result<PositionPcgResult, Refusal>,
    counts: &mut [u32],
    maxima: &mut [f64],
) -> u32
    requires { (length counts.old ≡ 2) × (length maxima.old ≡ 2) }
    ensures { record { number = result; counts = counts.new; maxima = maxima.new } ≡ told_of (told answer) counts.old maxima.old }
{
    match answer {
        Ok(result) => {
            counts[0] = result.iterations;
            counts[1] = result.converged as u32;
            maxima[0] = result.linear_residual_m;
            maxima[1] = result.angular_residual_rad;
            0
        }
        Err(refusal) => refusal.number(),
    }
}

// For n rows, b bodies and p = min(n(n - 1)/2, 16384): numbers 27n, words 8n, masses 10b, centres 3b, solution n, impulses 6b, new_centres 3b (where each link ends up); for r rules rule_words 3r (dimension, first key, last key), rule_tolerances r; rule_numbers n, each row's rule; counts 2 (count, flag), maxima 2 (linear, angular);
// jacobians 12n, links 2n, tolerances n, diagonal n, residual n, pending n, direction n, product n, body_impulses 6b, and by mode
// pattern 0, n + 1 + p or n, order 0, n + 2p or 0, values 0, p or 36n. The work memory, from jacobians on, is 0 afterwards.
// After a refusal nothing else is written; 3 leaves the work memory too as it was.
pub fn kapitsa_solve_position(
    numbers: &mut [f64],
    words: &[u32],
    masses: &[f64],
    centres: &[f64],
    rule_words: &[u32],
    rule_tolerances: &[f64],
    rows: u32,
    bodies: u32,
    limit: u32,
    mode: u32,
    shift: f64,
    solution: &mut [f64],
    impulses: &mut [f64],
    new_centres: &mut [f64],
    rule_numbers: &mut [u32],
    counts: &mut [u32],
    maxima: &mut [f64],
    jacobians: &mut [f64],
    links: &mut [u32],
    tolerances: &mut [f64],
    diagonal: &mut [f64],
    residual: &mut [f64],
    pending: &mut [f64],
    direction: &mut [f64],
    product: &mut [f64],
    body_impulses: &mut [f64],
    pattern: &mut [u32],
    order: &mut [u32],
    values: &mut [f64],
) -> u32
    ensures { SolveTold (told_fits counts.old maxima.old && ((rules_lent rows (length rule_words.now) (length rule_tolerances.now) (length rule_numbers.old) && centres_lent bodies (length centres.now) (length new_centres.old)) && passes3 rows bodies mode numbers.entry.now words.now masses.now solution.old impulses.old (work_memory jacobians.old links.old tolerances.old diagonal.old residual.old pending.old direction.old product.old body_impulses.old pattern.old order.old values.old)))
        (rules_in rule_words.now rule_tolerances.now)
        (position_of rows bodies numbers.entry.now words.now masses.now centres.now (rules_in rule_words.now rule_tolerances.now) shift) (mode_of mode shift) limit 24 rows
        record { numbers = numbers.entry.now; solution = solution.old; impulses = impulses.old; centres = new_centres.old } record { numbers = numbers.exit.now; solution = solution.new; impulses = impulses.new; centres = new_centres.new }
        rule_numbers.old rule_numbers.new counts.old maxima.old record { number = result; counts = counts.new; maxima = maxima.new }
        (work_memory jacobians.old links.old tolerances.old diagonal.old residual.old pending.old direction.old product.old body_impulses.old pattern.old order.old values.old)
        (work_memory jacobians.new links.new tolerances.new diagonal.new residual.new pending.new direction.new product.new body_impulses.new pattern.new order.new values.new) }
{
    if !told_fits(counts, maxima) {
        return 3;
    }
    let answer = solve_position_pcg_prepared(
        numbers,
        words,
        masses,
        centres,
        rows,
        bodies,
        rule_words,
        rule_tolerances,
        limit,
        mode,
        shift,
        solution,
        impulses,
        new_centres,
        rule_numbers,
        jacobians,
        links,
        tolerances,
        diagonal,
        residual,
        pending,
        direction,
        product,
        body_impulses,
        pattern,
        order,
        values,
    );
    tell(answer, counts, maxima)
}
