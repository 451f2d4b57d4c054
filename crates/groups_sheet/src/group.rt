// A group's line, and behind it what the job program prints of its rows alone.
ghost use Rattle.std.specs.Prelude.{◌≡◌, ◌+◌, ◌≤◌, length};
ghost use Rattle.job_file.specs.Job.{job_with};
ghost use Rattle.listing.specs.Written.{Wrote};
ghost use Rattle.job_sheet.specs.Sheet.{job_sheet};
ghost use Rattle.job_sheet.specs.Room.{JobRoom};
ghost use Rattle.job_sheet.specs.declared.which.Sheet.TheVariants as sheets;
ghost use Rattle.group_table.specs.Pick.{rows_of};
ghost use Rattle.groups_sheet.specs.Bench.{BenchRoom, OwnRoom};
ghost use Rattle.groups_sheet.specs.Text.{with_rows, group_text};

use crate::lines::group_line;
use group_table::{count_rows, pick_rows};
use job_file::Trailer;
use job_sheet::Sheet;
use job_sheet::sheet::write_job;

// A trailer of so many rows.
fn with_rows(trailer: Trailer, rows: u32) -> Trailer
    ensures { result ≡ with_rows trailer rows }
{
    let tolerance = trailer.tolerance;
    Trailer {
        rows: rows,
        bodies: trailer.bodies,
        limit: trailer.limit,
        mode: trailer.mode,
        row_offset: trailer.row_offset,
        mass_offset: trailer.mass_offset,
        tolerance: tolerance,
        file_length: trailer.file_length,
        spare: trailer.spare,
    }
}

// A job's sheet, from the byte `at` on.
fn write_behind(
    trailer: Trailer,
    numbers: &mut [f64],
    words: &[u32],
    masses: &[f64],
    centres: &[f64],
    solution: &mut [f64],
    impulses: &mut [f64],
    new_centres: &mut [f64],
    out: &mut [u8],
    at: usize,
) -> usize
    requires job_room { JobRoom trailer (length numbers.old) (length words.now) (length masses.now) (length centres.now) (length solution.old) (length impulses.old) (length new_centres.old) }
    requires at_in_bounds { at + 16384 ≤ length out.old }
    ensures { Wrote out.old at (job_sheet sheets.Job (job_with trailer numbers.old words.now masses.now centres.now)) out.new result }
{
    let end = write_job(
        Sheet::Job,
        trailer,
        numbers,
        words,
        masses,
        centres,
        solution,
        impulses,
        new_centres,
        &mut out[at..],
    );
    at + end
}

// With memory for `count` rows, as many as the group has.
fn write_picked(
    trailer: Trailer,
    groups: &[u32],
    g: u32,
    count: u32,
    numbers: &[f64],
    words: &[u32],
    masses: &[f64],
    centres: &[f64],
    own_numbers: &mut [f64],
    own_words: &mut [u32],
    solution: &mut [f64],
    impulses: &mut [f64],
    new_centres: &mut [f64],
    out: &mut [u8],
) -> usize
    requires bench_room { BenchRoom trailer (length numbers.now) (length words.now) (length masses.now) (length centres.now) (length groups.now) }
    requires count_value { (count ≡ length (rows_of groups.now g trailer.rows)) × OwnRoom count trailer.bodies (length own_numbers.old) (length own_words.old) (length solution.old) (length impulses.old) (length new_centres.old) }
    requires in_bounds { 17024 ≤ length out.old }
    ensures { Wrote out.old 0 (group_text (job_with trailer numbers.now words.now masses.now centres.now) g (rows_of groups.now g trailer.rows)) out.new result }
{
    let rows = trailer.rows as usize;
    pick_rows(groups, g, rows, 27, numbers, own_numbers);
    pick_rows(groups, g, rows, 8, words, own_words);
    let at = group_line(groups, g, trailer.rows, count, out);
    write_behind(
        with_rows(trailer, count),
        own_numbers,
        own_words,
        masses,
        centres,
        solution,
        impulses,
        new_centres,
        out,
        at,
    )
}

// Writes what the program prints of group `g` from the first byte on, and returns its length. The line has at most 640 bytes, the sheet at most 16,384.
pub fn write_group(
    trailer: Trailer,
    groups: &[u32],
    g: u32,
    numbers: &[f64],
    words: &[u32],
    masses: &[f64],
    centres: &[f64],
    out: &mut [u8],
) -> usize
    requires bench_room { BenchRoom trailer (length numbers.now) (length words.now) (length masses.now) (length centres.now) (length groups.now) }
    requires in_bounds { 17024 ≤ length out.old }
    ensures { Wrote out.old 0 (group_text (job_with trailer numbers.now words.now masses.now centres.now) g (rows_of groups.now g trailer.rows)) out.new result }
{
    let mut own_numbers: [f64; 3456] = [0.0; 3456];
    let mut own_words: [u32; 1024] = [0; 1024];
    let mut solution: [f64; 128] = [0.0; 128];
    let mut impulses: [f64; 384] = [0.0; 384];
    let mut new_centres: [f64; 192] = [0.0; 192];
    let rows = trailer.rows as usize;
    let bodies = trailer.bodies as usize;
    let count = count_rows(groups, g, rows);
    let row_numbers = 27 * count;
    let row_words = 8 * count;
    let body_numbers = 6 * bodies;
    let centre_numbers = 3 * bodies;
    write_picked(
        trailer,
        groups,
        g,
        count as u32,
        numbers,
        words,
        masses,
        centres,
        &mut own_numbers[..row_numbers],
        &mut own_words[..row_words],
        &mut solution[..count],
        &mut impulses[..body_numbers],
        &mut new_centres[..centre_numbers],
        out,
    )
}
