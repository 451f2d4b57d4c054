// A file that has passed 1 to 4: its job read, the whole table judged, and a group number for each row.
ghost use Rattle.std.specs.Prelude.{◌≡◌, length};
ghost use Rattle.refusals.specs.Told.{told};
ghost use Rattle.job_file.specs.Job.{job_with, judged_of};
ghost use Rattle.loops.specs.Run.{going};
ghost use Rattle.groups_sheet.specs.Bench.{BenchRoom, JobGrouped, BenchRead};

use groups::group_rows;
use job_file::{Trailer, read_centres, read_masses, read_rows};
use joint_refusals::{centres_finite, masses_finite, rows_valid, tolerances_fit};
use loops::wide;
use refusals::Refusal;

// A job that has been read: 26 of its two tolerances, then 6 and 7 of the whole table, and then its groups.
fn group_job(
    trailer: Trailer,
    numbers: &[f64],
    words: &[u32],
    masses: &[f64],
    centres: &[f64],
    groups: &mut [u32],
) -> Result<u32, Refusal>
    requires { BenchRoom trailer (length numbers.now) (length words.now) (length masses.now) (length centres.now) (length groups.old) }
    ensures { JobGrouped (job_with trailer numbers.now words.now masses.now centres.now) groups.old groups.new (told result) }
{
    let rows = wide(trailer.rows);
    let bodies = wide(trailer.bodies);
    if !tolerances_fit(trailer.tolerance) {
        return Err(Refusal::Tolerance);
    }
    if !(masses_finite(masses, bodies) & centres_finite(centres, bodies)) {
        return Err(Refusal::Mass);
    }
    if !rows_valid(numbers, words, rows, trailer.bodies) {
        return Err(Refusal::Row);
    }
    let mut labels: [u32; 192] = [0; 192];
    Ok(group_rows(words, masses, rows, bodies, &mut labels, groups))
}

// The job into lent memory, and the number of each row's group.
pub fn read_bench(
    file: &[u8],
    trailer: Trailer,
    numbers: &mut [f64],
    words: &mut [u32],
    masses: &mut [f64],
    centres: &mut [f64],
    groups: &mut [u32],
) -> Result<u32, Refusal>
    requires file_value { judged_of file.now ≡ going trailer }
    requires bench_room { BenchRoom trailer (length numbers.old) (length words.old) (length masses.old) (length centres.old) (length groups.old) }
    ensures { BenchRead file.now (job_with trailer numbers.new words.new masses.new centres.new) groups.old groups.new (told result) }
{
    let rows = trailer.rows as usize;
    let bodies = trailer.bodies as usize;
    let row_offset = trailer.row_offset as usize;
    let mass_offset = trailer.mass_offset as usize;
    read_rows(file, row_offset, rows, numbers, words);
    read_masses(file, mass_offset, trailer.spare, bodies, masses);
    read_centres(file, mass_offset, trailer.spare, bodies, centres);
    group_job(trailer, numbers, words, masses, centres, groups)
}
