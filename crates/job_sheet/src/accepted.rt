// The closing check of what an accepted job has solved, and its listing.
ghost use Rattle.std.specs.Prelude.{◌≤◌, length};
ghost use Rattle.job_file.specs.Job.{job_with};
ghost use Rattle.listing.specs.Written.{Wrote};
ghost use Rattle.job_sheet.specs.Sheet.{printed_of};
ghost use Rattle.job_sheet.specs.Room.{JobRoom};

use check_alone::checked_small;
use job_file::Trailer;
use kapitsa_joint::Maxima;
use listing::write_listing;
use position_delivery::PositionPcgResult;

// The rows are those after the solve, and the solution is what the check gets for its multipliers.
pub fn write_accepted(
    trailer: Trailer,
    res: PositionPcgResult,
    numbers: &[f64],
    words: &[u32],
    masses: &[f64],
    centres: &[f64],
    solution: &[f64],
    impulses: &[f64],
    new_centres: &[f64],
    out: &mut [u8],
) -> usize
    requires job_room { JobRoom trailer (length numbers.now) (length words.now) (length masses.now) (length centres.now) (length solution.now) (length impulses.now) (length new_centres.now) }
    requires in_bounds { 16384 ≤ length out.old }
    ensures { Wrote out.old 0 (printed_of (job_with trailer numbers.now words.now masses.now centres.now) res numbers.now solution.now impulses.now new_centres.now) out.new result }
{
    let mut rule_numbers: [u32; 128] = [0; 128];
    let rows = trailer.rows as usize;
    let answer = checked_small(
        trailer.rows,
        trailer.bodies,
        numbers,
        words,
        masses,
        centres,
        solution,
        &[0, 0, 255, 1, 0, 255],
        &[trailer.tolerance.linear_m, trailer.tolerance.angular_rad],
        &mut rule_numbers[..rows],
    );
    write_listing(
        res.iterations,
        res.converged,
        check_answer::gap(answer),
        Maxima {
            linear: res.linear_residual_m,
            angular: res.angular_residual_rad,
        },
        check_answer::number(answer),
        trailer.rows,
        trailer.bodies,
        numbers,
        impulses,
        trailer.spare,
        new_centres,
        out,
    )
}
