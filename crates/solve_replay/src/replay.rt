// One job of a list: its table read and solved.
ghost use Rattle.std.specs.Prelude.{◌≡◌, ◌+◌, ◌*◌, ◌<◌, ◌≤◌, length, replicate};
ghost use Rattle.kapitsa_joint.specs.Kind.{placed_of};
ghost use Rattle.solve_replay.specs.Seen.{beside_size, tolerance_in, solved_seen, malformed_in, table_seen, job_seen};

use crate::answer::{Seen, accepted_seen, refused_seen};
use crate::header::{Header, read_header};
use crate::room::{
    beside_room, beside_word_room, impulse_room, mass_room, mass_word_room, new_centre_room,
    number_room, row_word_room, solution_room, word_room,
};
use crate::table::read_table;
use kapitsa_joint::{JointTolerance, Kind, placed_of};
use loops::wide;
use position_solve::solve_table;

fn tolerance_in(header: Header) -> JointTolerance
    ensures { result ≡ tolerance_in header }
{
    JointTolerance {
        linear_m: binary64::from_bits(header.linear_tolerance),
        angular_rad: binary64::from_bits(header.angular_tolerance),
    }
}

fn solved_seen(
    kind: Kind,
    list: &[u8],
    at: usize,
    header: Header,
    rows: &[u64],
    numbers: &mut [f64],
    words: &[u32],
    masses: &[f64],
    beside: &[f64],
    solution: &mut [f64],
    impulses: &mut [f64],
    new_centres: &mut [f64],
) -> Seen
    requires at_bound { (at < 3000000000) × (header.rows ≤ 513) × (header.bodies ≤ 257) }
    requires rows_len { (length rows.now ≡ 35 * header.rows) × (length numbers.old ≡ 27 * header.rows) × (length solution.old ≡ header.rows) × (length impulses.old ≡ 6 * header.bodies) × (length new_centres.old ≡ 3 * placed_of kind header.bodies) × (length beside.now ≡ beside_size kind header.rows header.bodies) }
    ensures { result ≡ solved_seen kind list.now at header rows.now words.now masses.now beside.now record { numbers = numbers.entry.now; solution = solution.old; impulses = impulses.old; centres = new_centres.old } }
{
    let tolerance = tolerance_in(header);
    let mut rule_numbers: [u32; 513] = [0; 513];
    let n = header.rows as usize;
    let three = 3 * wide(placed_of(kind, header.bodies));
    let answer = solve_table(
        kind,
        numbers,
        words,
        masses,
        &beside[..three],
        header.rows,
        header.bodies,
        &[0, 0, 255, 1, 0, 255],
        &[tolerance.linear_m, tolerance.angular_rad],
        beside,
        header.limit,
        header.mode,
        0.0,
        solution,
        impulses,
        new_centres,
        &mut rule_numbers[..n],
    );
    match answer {
        Ok(result) => {
            accepted_seen(
                kind,
                list,
                at,
                header,
                result,
                rows,
                numbers,
                solution,
                impulses,
                new_centres,
            )
        }
        Err(refusal) => {
            refused_seen(
                kind,
                list,
                at,
                header,
                refusal.number(),
                rows,
                numbers,
                solution,
                impulses,
                new_centres,
            )
        }
    }
}

fn table_seen(
    kind: Kind,
    list: &[u8],
    at: usize,
    header: Header,
    rows: &mut [u64],
    mass_words: &mut [u64],
    beside_words: &mut [u64],
    numbers: &mut [f64],
    words: &mut [u32],
    masses: &mut [f64],
    beside: &mut [f64],
) -> Seen
    requires at_bound { (at < 2000000000) × (header.rows ≤ 513) × (header.bodies ≤ 257) }
    requires numbers_len { (length numbers.old ≡ 27 * header.rows) × (length words.old ≡ 8 * header.rows) × (length masses.old ≡ 10 * header.bodies) × (length beside.old ≡ beside_size kind header.rows header.bodies) }
    requires rows_value { (rows.old ≡ replicate (35 * header.rows) 0) × (mass_words.old ≡ replicate (10 * header.bodies) 0) × (beside_words.old ≡ replicate (beside_size kind header.rows header.bodies) 0) }
    ensures { result ≡ table_seen kind list.now at header }
{
    let mut solution = solution_room();
    let mut impulses = impulse_room();
    let mut new_centres = new_centre_room();
    let n = wide(header.rows);
    let b = wide(header.bodies);
    let six = 6 * b;
    let three = 3 * wide(placed_of(kind, header.bodies));
    let end = read_table(
        kind,
        list,
        at,
        header,
        rows,
        mass_words,
        beside_words,
        numbers,
        words,
        masses,
        beside,
    );
    solved_seen(
        kind,
        list,
        end,
        header,
        rows,
        numbers,
        words,
        masses,
        beside,
        &mut solution[..n],
        &mut impulses[..six],
        &mut new_centres[..three],
    )
}

// How many numbers are lent beside the table.
fn size_of_beside(kind: Kind, n: usize, b: usize) -> usize
    requires { (n ≤ 513) × (b ≤ 257) }
    ensures { result ≡ beside_size kind n b }
{
    match kind {
        Kind::Position => 3 * b,
        Kind::Velocity => n,
    }
}

fn sized_seen(kind: Kind, list: &[u8], at: usize, header: Header) -> Seen
    requires { (at < 2000000000) × (header.rows ≤ 513) × (header.bodies ≤ 257) }
    ensures { result ≡ table_seen kind list.now at header }
{
    let mut rows = row_word_room();
    let mut mass_words = mass_word_room();
    let mut beside_words = beside_word_room();
    let mut numbers = number_room();
    let mut words = word_room();
    let mut masses = mass_room();
    let mut beside = beside_room();
    let n = wide(header.rows);
    let b = wide(header.bodies);
    let row_words = 35 * n;
    let row_numbers = 27 * n;
    let eight = 8 * n;
    let ten = 10 * b;
    let beside_size = size_of_beside(kind, n, b);
    table_seen(
        kind,
        list,
        at,
        header,
        &mut rows[..row_words],
        &mut mass_words[..ten],
        &mut beside_words[..beside_size],
        &mut numbers[..row_numbers],
        &mut words[..eight],
        &mut masses[..ten],
        &mut beside[..beside_size],
    )
}

// The lists hold no such job. The rest of the list is taken for it.
fn malformed(list: &[u8]) -> Seen
    ensures { result ≡ malformed_in list.now }
{
    Seen {
        outcome: 0,
        same: false,
        end: list.len(),
    }
}

// The job at `at`. One that is not whole, or larger than any that is recorded, differs.
pub fn job_seen(kind: Kind, list: &[u8], at: usize) -> Seen
    requires { at < 1000000000 }
    ensures { result ≡ job_seen kind list.now at }
{
    let header = read_header(list, at);
    if !((header.rows <= 513) & (header.bodies <= 257)) {
        return malformed(list);
    }
    sized_seen(kind, list, at + 64, header)
}
