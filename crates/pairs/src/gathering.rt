// The pairs of a table, with refusals 10 and 12: the first half of build_incomplete_cholesky_preconditioner_into of pcg.rs.
ghost use Rattle.std.specs.Prelude.{◌≡◌, ◌+◌, ◌*◌, ◌≤◌, length};
ghost use Rattle.mass_operator.specs.System.{compact_system};
ghost use Rattle.compact_table.specs.Compact.{Linked};
ghost use Rattle.refusals.specs.Told.{told};
ghost use Rattle.sparse.specs.Kept.{start, Kept};
ghost use Rattle.pairs.specs.Pairs.{pattern_of, pair_count, pair_room};
ghost use Rattle.pairs.specs.Pattern.{starts_in, columns_in};
ghost use Rattle.pairs.specs.Gather.{value_in, Valued, finite_below};
ghost use Rattle.pairs.specs.Answers.{PairsHeld, PairsFree};

use crate::pattern::gather;
use crate::values::fill_values;
use loops::wide;
use refusals::Refusal;

// The values of the pairs whose starts and columns are in `pattern`. Are all finite?
fn fill(
    jacobians: &[f64],
    links: &[u32],
    masses: &[f64],
    rows: u32,
    bodies: usize,
    pattern: &[u32],
    values: &mut [f64],
) -> bool
    requires rows_in_bounds { (12 * rows ≤ length jacobians.now) × (2 * rows ≤ length links.now) × (10 * bodies ≤ length masses.now) }
    requires linked { Linked links.now rows bodies }
    requires pattern_len { length pattern.now ≡ rows + 1 + length values.old }
    requires kept { Kept (starts_in rows pattern.now) (columns_in rows pattern.now) }
    ensures valued { Valued (value_in jacobians.now links.now masses.now) (starts_in rows pattern.now) (columns_in rows pattern.now) values.new
        (start (starts_in rows pattern.now) rows) }
    ensures value { result ≡ finite_below values.new (start (starts_in rows pattern.now) rows) }
{
    let n = wide(rows);
    let ends = n + 1;
    fill_values(
        jacobians,
        links,
        masses,
        n,
        bodies,
        &pattern[..ends],
        &pattern[ends..],
        values,
    )
}

// Starts and columns of the pairs in `pattern`, and their values. The answer is their number, or refusal 10, with the pattern cleared, or 12.
pub fn pairs(
    jacobians: &[f64],
    links: &[u32],
    masses: &[f64],
    rows: u32,
    bodies: usize,
    pattern: &mut [u32],
    values: &mut [f64],
    room: u32,
) -> Result<u32, Refusal>
    requires rows_in_bounds { (12 * rows ≤ length jacobians.now) × (2 * rows ≤ length links.now) × (10 * bodies ≤ length masses.now) }
    requires linked { Linked links.now rows bodies }
    requires pattern_len { (length pattern.old ≡ rows + 1 + pair_room rows) × (length values.old ≡ pair_room rows) × (room ≡ pair_room rows) }
    ensures pairs_held { PairsHeld (compact_system rows bodies jacobians.now links.now masses.now) (told result) values.old
        (starts_in rows pattern.new) (columns_in rows pattern.new) values.new }
    ensures pairs_free { PairsFree rows (pair_count (pattern_of (compact_system rows bodies jacobians.now links.now masses.now)) rows)
        pattern.old pattern.new values.old values.new }
{
    let Ok(count) = gather(links, pattern, room, rows) else {
        loops::clear_words(pattern);
        return Err(Refusal::Pairs);
    };
    if !fill(jacobians, links, masses, rows, bodies, pattern, values) {
        return Err(Refusal::Value);
    }
    Ok(count)
}
