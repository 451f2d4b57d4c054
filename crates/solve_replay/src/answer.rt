// The solve's answer beside the recorded one.
ghost use Rattle.std.specs.Prelude.{◌≡◌, ◌*◌, ◌<◌, ◌≤◌, length, replicate};
ghost use Rattle.kapitsa_joint.specs.Kind.{placed_of};
ghost use Rattle.solve_replay.specs.Seen.{flag_of, same_result, accepted_seen, refused_seen};

use crate::compare::{kept_numbers, same_answers, same_doubles, unwritten};
use crate::header::Header;
use crate::room::{answer_room, body_word_room, centre_word_room};
use kapitsa_joint::{Kind, place_of, placed_of};
use loops::wide;
use packed_list::unpack;
use position_delivery::PositionPcgResult;

// The outcome is 0 where the solve refuses, 1 with flag 0, 2 with flag 1. `end` is where the job ends.
#[derive(Clone, Copy)]
pub struct Seen {
    pub outcome: u32,
    pub same: bool,
    pub end: usize,
}

fn flag(holds: bool) -> u32
    ensures value { result ≡ flag_of holds }
    ensures upper_bound { result ≤ 1 }
{
    if holds {
        return 1;
    }
    0
}

// Flag, count and maxima.
fn same_result(header: Header, res: PositionPcgResult) -> bool
    ensures { result ≡ same_result header res }
{
    (header.refusal == 0)
        & (header.flag == flag(res.converged))
        & (header.count == res.iterations)
        & (header.linear_maximum == binary64::to_bits(res.linear_residual_m))
        & (header.angular_maximum == binary64::to_bits(res.angular_residual_rad))
}

// The recorded solution, accumulated numbers, impulses and new centres begin at `at`.
fn answers_seen(
    kind: Kind,
    list: &[u8],
    at: usize,
    header: Header,
    res: PositionPcgResult,
    rows: &[u64],
    numbers: &[f64],
    solution: &[f64],
    impulses: &[f64],
    new_centres: &[f64],
    answers: &mut [u64],
    body_words: &mut [u64],
    centre_words: &mut [u64],
) -> Seen
    requires at_bound { (at < 3000000000) × (header.rows ≤ 513) × (header.bodies ≤ 257) }
    requires rows_len { (length rows.now ≡ 35 * header.rows) × (length numbers.now ≡ 27 * header.rows) × (length solution.now ≡ header.rows) × (length impulses.now ≡ 6 * header.bodies) × (length new_centres.now ≡ 3 * placed_of kind header.bodies) }
    requires answers_value { (answers.old ≡ replicate (2 * header.rows) 0) × (body_words.old ≡ replicate (6 * header.bodies) 0) × (centre_words.old ≡ replicate (3 * placed_of kind header.bodies) 0) }
    ensures { result ≡ accepted_seen kind list.now at header rows.now res record { numbers = numbers.entry.now; solution = solution.now; impulses = impulses.now; centres = new_centres.now } }
{
    let n = wide(header.rows);
    let b = wide(header.bodies);
    let placed = wide(placed_of(kind, header.bodies));
    let place = place_of(kind);
    let bodies_at = unpack(list, at, 2, n, answers);
    let centres_at = unpack(list, bodies_at, 6, b, body_words);
    let end = unpack(list, centres_at, 3, placed, centre_words);
    Seen {
        outcome: 1 + flag(res.converged),
        same: same_result(header, res)
            & same_answers(place, solution, numbers, answers)
            & same_doubles(impulses, body_words)
            & same_doubles(new_centres, centre_words)
            & kept_numbers(place, true, numbers, rows)
            & (end <= list.len()),
        end,
    }
}

pub fn accepted_seen(
    kind: Kind,
    list: &[u8],
    at: usize,
    header: Header,
    res: PositionPcgResult,
    rows: &[u64],
    numbers: &[f64],
    solution: &[f64],
    impulses: &[f64],
    new_centres: &[f64],
) -> Seen
    requires at_bound { (at < 3000000000) × (header.rows ≤ 513) × (header.bodies ≤ 257) }
    requires rows_len { (length rows.now ≡ 35 * header.rows) × (length numbers.now ≡ 27 * header.rows) × (length solution.now ≡ header.rows) × (length impulses.now ≡ 6 * header.bodies) × (length new_centres.now ≡ 3 * placed_of kind header.bodies) }
    ensures { result ≡ accepted_seen kind list.now at header rows.now res record { numbers = numbers.entry.now; solution = solution.now; impulses = impulses.now; centres = new_centres.now } }
{
    let mut answers = answer_room();
    let mut body_words = body_word_room();
    let mut centre_words = centre_word_room();
    let n = wide(header.rows);
    let b = wide(header.bodies);
    let two = 2 * n;
    let six = 6 * b;
    let three = 3 * wide(placed_of(kind, header.bodies));
    answers_seen(
        kind,
        list,
        at,
        header,
        res,
        rows,
        numbers,
        solution,
        impulses,
        new_centres,
        &mut answers[..two],
        &mut body_words[..six],
        &mut centre_words[..three],
    )
}

pub fn refused_seen(
    kind: Kind,
    list: &[u8],
    at: usize,
    header: Header,
    number: u32,
    rows: &[u64],
    numbers: &[f64],
    solution: &[f64],
    impulses: &[f64],
    new_centres: &[f64],
) -> Seen
    requires rows_bound { (header.rows ≤ 513) × (header.bodies ≤ 257) }
    requires rows_len { (length rows.now ≡ 35 * header.rows) × (length numbers.now ≡ 27 * header.rows) × (length solution.now ≡ header.rows) × (length impulses.now ≡ 6 * header.bodies) × (length new_centres.now ≡ 3 * placed_of kind header.bodies) }
    ensures { result ≡ refused_seen kind list.now at header rows.now number record { numbers = numbers.entry.now; solution = solution.now; impulses = impulses.now; centres = new_centres.now } }
{
    Seen {
        outcome: 0,
        same: (header.refusal == number)
            & kept_numbers(place_of(kind), false, numbers, rows)
            & unwritten(solution)
            & unwritten(impulses)
            & unwritten(new_centres)
            & (at <= list.len()),
        end: at,
    }
}
