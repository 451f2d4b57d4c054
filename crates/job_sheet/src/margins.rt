// The closing check of what an accepted job has solved, and the list of its margins: document 02, m.
ghost use Rattle.std.specs.Prelude.{◌≡◌, ◌≤◌, length};
ghost use Rattle.job_file.specs.Job.{job_with};
ghost use Rattle.listing.specs.Written.{Wrote};
ghost use Rattle.job_sheet.specs.Sheet.{margins_printed};
ghost use Rattle.job_sheet.specs.Room.{CheckRoom};

use closing_margins::margins_small;
use job_file::Trailer;
use kapitsa_joint::Maxima;
use listing::write_margins;
use position_delivery::PositionPcgResult;

// With a place a row for the list.
fn write_listed(
    trailer: Trailer,
    res: PositionPcgResult,
    numbers: &[f64],
    words: &[u32],
    masses: &[f64],
    centres: &[f64],
    solution: &[f64],
    rule_numbers: &mut [u32],
    margin_rows: &mut [u32],
    margins: &mut [f64],
    out: &mut [u8],
) -> usize
    requires check_room { CheckRoom trailer (length numbers.now) (length words.now) (length masses.now) (length centres.now) (length solution.now) }
    requires rule_numbers_len { (length rule_numbers.old ≡ trailer.rows) × (length margin_rows.old ≡ trailer.rows) × (length margins.old ≡ trailer.rows) × (16384 ≤ length out.old) }
    ensures { Wrote out.old 0 (margins_printed (job_with trailer numbers.now words.now masses.now centres.now) res numbers.now solution.now) out.new result }
{
    let answer = margins_small(
        trailer.rows,
        trailer.bodies,
        numbers,
        words,
        masses,
        centres,
        solution,
        &[0, 0, 255, 1, 0, 255],
        &[trailer.tolerance.linear_m, trailer.tolerance.angular_rad],
        rule_numbers,
        margin_rows,
        margins,
    );
    write_margins(
        res.iterations,
        res.converged,
        check_answer::gap(answer),
        Maxima {
            linear: res.linear_residual_m,
            angular: res.angular_residual_rad,
        },
        check_answer::number(answer),
        trailer.rows,
        margin_rows,
        margins,
        out,
    )
}

// The rows are those after the solve, and the solution is what the check gets for its multipliers.
pub fn write_margins_accepted(
    trailer: Trailer,
    res: PositionPcgResult,
    numbers: &[f64],
    words: &[u32],
    masses: &[f64],
    centres: &[f64],
    solution: &[f64],
    out: &mut [u8],
) -> usize
    requires check_room { CheckRoom trailer (length numbers.now) (length words.now) (length masses.now) (length centres.now) (length solution.now) }
    requires in_bounds { 16384 ≤ length out.old }
    ensures { Wrote out.old 0 (margins_printed (job_with trailer numbers.now words.now masses.now centres.now) res numbers.now solution.now) out.new result }
{
    let mut rule_numbers: [u32; 128] = [0; 128];
    let mut margin_rows: [u32; 128] = [0; 128];
    let mut margins: [f64; 128] = [0.0; 128];
    let rows = trailer.rows as usize;
    write_listed(
        trailer,
        res,
        numbers,
        words,
        masses,
        centres,
        solution,
        &mut rule_numbers[..rows],
        &mut margin_rows[..rows],
        &mut margins[..rows],
        out,
    )
}
