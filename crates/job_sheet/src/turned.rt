// What is printed of a refused job: its refusal and, by the gaps program, the first row, body or limit that the refusal met.
ghost use Rattle.std.specs.Prelude.{◌≤◌, length};
ghost use Rattle.job_file.specs.Job.{job_with};
ghost use Rattle.listing.specs.Written.{Wrote};
ghost use Rattle.job_sheet.specs.Sheet.{gaps_turned, turned_of};

use crate::which::Sheet;
use first_refusal::{Place, first_refused};
use job_file::Trailer;
use kapitsa_joint::Kind;
use listing::{write_refusal, write_refused_body, write_refused_limit, write_refused_row};

// The tables are those that the solve was given, and its two rules.
fn write_gaps_turned(
    number: u32,
    trailer: Trailer,
    numbers: &[f64],
    words: &[u32],
    masses: &[f64],
    centres: &[f64],
    out: &mut [u8],
) -> usize
    requires { 16384 ≤ length out.old }
    ensures { Wrote out.old 0 (gaps_turned (job_with trailer numbers.now words.now masses.now centres.now) number) out.new result }
{
    let place = first_refused(
        Kind::Position,
        number,
        trailer.rows,
        trailer.bodies,
        numbers,
        words,
        masses,
        centres,
        &[0, 0, 255, 1, 0, 255],
        &[trailer.tolerance.linear_m, trailer.tolerance.angular_rad],
        trailer.limit,
    );
    match place {
        Place::Row(row) => write_refused_row(number, row, words[8 * (row as usize) + 6], out),
        Place::Body(body) => write_refused_body(number, body, out),
        Place::Rule(_) => write_refusal(number, out),
        Place::Limit => write_refused_limit(number, out),
        Place::None => write_refusal(number, out),
    }
}

pub fn write_turned(
    sheet: Sheet,
    number: u32,
    trailer: Trailer,
    numbers: &[f64],
    words: &[u32],
    masses: &[f64],
    centres: &[f64],
    out: &mut [u8],
) -> usize
    requires { 16384 ≤ length out.old }
    ensures { Wrote out.old 0 (turned_of sheet (job_with trailer numbers.now words.now masses.now centres.now) number) out.new result }
{
    match sheet {
        Sheet::Job => write_refusal(number, out),
        Sheet::Margins => write_refusal(number, out),
        Sheet::Gaps => write_gaps_turned(number, trailer, numbers, words, masses, centres, out),
    }
}
