// What is printed of an accepted job: all that the programs do not share.
ghost use Rattle.std.specs.Prelude.{◌≤◌, length};
ghost use Rattle.job_file.specs.Job.{job_with};
ghost use Rattle.listing.specs.Written.{Wrote};
ghost use Rattle.job_sheet.specs.Sheet.{shown_of};
ghost use Rattle.job_sheet.specs.Room.{JobRoom};

use crate::accepted::write_accepted;
use crate::gaps::write_gaps_accepted;
use crate::margins::write_margins_accepted;
use crate::which::Sheet;
use job_file::Trailer;
use position_delivery::PositionPcgResult;

pub fn write_solved(
    sheet: Sheet,
    trailer: Trailer,
    res: PositionPcgResult,
    numbers: &[f64],
    words: &[u32],
    masses: &[f64],
    centres: &[f64],
    solution: &[f64],
    impulses: &[f64],
    new_centres: &[f64],
    out: &mut [u8],
) -> usize
    requires job_room { JobRoom trailer (length numbers.now) (length words.now) (length masses.now) (length centres.now) (length solution.now) (length impulses.now) (length new_centres.now) }
    requires in_bounds { 16384 ≤ length out.old }
    ensures { Wrote out.old 0 (shown_of sheet (job_with trailer numbers.now words.now masses.now centres.now) res numbers.now solution.now impulses.now new_centres.now) out.new result }
{
    match sheet {
        Sheet::Job => write_accepted(
            trailer,
            res,
            numbers,
            words,
            masses,
            centres,
            solution,
            impulses,
            new_centres,
            out,
        ),
        Sheet::Margins => write_margins_accepted(
            trailer, res, numbers, words, masses, centres, solution, out,
        ),
        Sheet::Gaps => write_gaps_accepted(
            trailer, res, numbers, words, masses, centres, solution, out,
        ),
    }
}
