// The file judged and read, its job solved, and the answer written.
ghost use Rattle.std.specs.Prelude.{◌≡◌, ◌≤◌, length};
ghost use Rattle.job_file.specs.Job.{job_with, opened_of};
ghost use Rattle.loops.specs.Run.{going};
ghost use Rattle.listing.specs.Written.{Wrote};
ghost use Rattle.job_sheet.specs.Sheet.{job_sheet, sheet_of};
ghost use Rattle.job_sheet.specs.Room.{JobRoom};

use crate::solved::write_solved;
use crate::turned::write_turned;
use crate::which::Sheet;
use job_file::judge::judge_trailer;
use job_file::{Trailer, keys_fit, read_centres, read_masses, read_rows};
use joint_refusals::tolerances_fit;
use listing::write_refusal;
use small_solve::solve_small_position;

// A job that has been read.
pub fn write_job(
    sheet: Sheet,
    trailer: Trailer,
    numbers: &mut [f64],
    words: &[u32],
    masses: &[f64],
    centres: &[f64],
    solution: &mut [f64],
    impulses: &mut [f64],
    new_centres: &mut [f64],
    out: &mut [u8],
) -> usize
    requires job_room { JobRoom trailer (length numbers.old) (length words.now) (length masses.now) (length centres.now) (length solution.old) (length impulses.old) (length new_centres.old) }
    requires in_bounds { 16384 ≤ length out.old }
    ensures { Wrote out.old 0 (job_sheet sheet (job_with trailer numbers.old words.now masses.now centres.now)) out.new result }
{
    if !tolerances_fit(trailer.tolerance) {
        return write_turned(sheet, 26, trailer, numbers, words, masses, centres, out);
    }
    let mut rule_numbers: [u32; 128] = [0; 128];
    let rows = trailer.rows as usize;
    let answer = solve_small_position(
        numbers,
        words,
        masses,
        centres,
        trailer.rows,
        trailer.bodies,
        &[0, 0, 255, 1, 0, 255],
        &[trailer.tolerance.linear_m, trailer.tolerance.angular_rad],
        trailer.limit,
        trailer.mode,
        0.0,
        solution,
        impulses,
        new_centres,
        &mut rule_numbers[..rows],
    );
    match answer {
        Err(refusal) => {
            write_turned(
                sheet,
                refusal.number(),
                trailer,
                numbers,
                words,
                masses,
                centres,
                out,
            )
        }
        Ok(result) => write_solved(
            sheet,
            trailer,
            result,
            numbers,
            words,
            masses,
            centres,
            solution,
            impulses,
            new_centres,
            out,
        ),
    }
}

// A file that has passed 1 to 3, with memory as long as its counts call for. It is read before 4 is judged, which may name a row.
fn write_file(
    sheet: Sheet,
    file: &[u8],
    trailer: Trailer,
    numbers: &mut [f64],
    words: &mut [u32],
    masses: &mut [f64],
    centres: &mut [f64],
    solution: &mut [f64],
    impulses: &mut [f64],
    new_centres: &mut [f64],
    out: &mut [u8],
) -> usize
    requires file_value { opened_of file.now ≡ going trailer }
    requires job_room { JobRoom trailer (length numbers.old) (length words.old) (length masses.old) (length centres.old) (length solution.old) (length impulses.old) (length new_centres.old) }
    requires in_bounds { 16384 ≤ length out.old }
    ensures { Wrote out.old 0 (sheet_of sheet file.now) out.new result }
{
    let rows = trailer.rows as usize;
    let bodies = trailer.bodies as usize;
    let row_offset = trailer.row_offset as usize;
    let mass_offset = trailer.mass_offset as usize;
    read_rows(file, row_offset, rows, numbers, words);
    read_masses(file, mass_offset, trailer.spare, bodies, masses);
    read_centres(file, mass_offset, trailer.spare, bodies, centres);
    if !keys_fit(file, row_offset, rows) {
        return write_turned(sheet, 4, trailer, numbers, words, masses, centres, out);
    }
    write_job(
        sheet,
        trailer,
        numbers,
        words,
        masses,
        centres,
        solution,
        impulses,
        new_centres,
        out,
    )
}

// Memory for what the program takes: 128 rows and 64 bodies.
fn write_passed(sheet: Sheet, file: &[u8], trailer: Trailer, out: &mut [u8]) -> usize
    requires file_value { opened_of file.now ≡ going trailer }
    requires in_bounds { 16384 ≤ length out.old }
    ensures { Wrote out.old 0 (sheet_of sheet file.now) out.new result }
{
    let mut numbers: [f64; 3456] = [0.0; 3456];
    let mut words: [u32; 1024] = [0; 1024];
    let mut masses: [f64; 640] = [0.0; 640];
    let mut centres: [f64; 192] = [0.0; 192];
    let mut solution: [f64; 128] = [0.0; 128];
    let mut impulses: [f64; 384] = [0.0; 384];
    let mut new_centres: [f64; 192] = [0.0; 192];
    let rows = trailer.rows as usize;
    let bodies = trailer.bodies as usize;
    let row_numbers = 27 * rows;
    let row_words = 8 * rows;
    let mass_numbers = 10 * bodies;
    let body_numbers = 6 * bodies;
    let centre_numbers = 3 * bodies;
    write_file(
        sheet,
        file,
        trailer,
        &mut numbers[..row_numbers],
        &mut words[..row_words],
        &mut masses[..mass_numbers],
        &mut centres[..centre_numbers],
        &mut solution[..rows],
        &mut impulses[..body_numbers],
        &mut new_centres[..centre_numbers],
        out,
    )
}

// Writes what the program prints of the file from the first byte on, and returns its length.
pub fn write_sheet(sheet: Sheet, file: &[u8], out: &mut [u8]) -> usize
    requires { 16384 ≤ length out.old }
    ensures { Wrote out.old 0 (sheet_of sheet file.now) out.new result }
{
    match judge_trailer(file) {
        Ok(trailer) => write_passed(sheet, file, trailer, out),
        Err(refusal) => write_refusal(refusal.number(), out),
    }
}
