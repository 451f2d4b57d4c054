// The program: reads a job file from standard input, and prints its first line and then group by group. No contract can say what is read or printed.
ghost use Rattle.std.specs.Prelude.{◌≡◌, length};
ghost use Rattle.job_file.specs.Job.{judged_of};
ghost use Rattle.loops.specs.Run.{going};
ghost use Rattle.groups_sheet.specs.Bench.{BenchRoom};

use crate::bench::read_bench;
use crate::group::write_group;
use crate::lines::groups_line;
use job_file::{Trailer, judge_file};
use program_io::{read_input, write_output};

// Whether all was written; where not, this is told, and nothing more is printed.
fn print_first(rt: &HostRuntime, refusal: u32, count: u32) -> bool {
    let mut text: [u8; 64] = [0; 64];
    let end = groups_line(refusal, count, &mut text);
    write_output(rt, b"mechanisms", &text[..end])
}

fn print_group(
    rt: &HostRuntime,
    trailer: Trailer,
    groups: &[u32],
    g: u32,
    numbers: &[f64],
    words: &[u32],
    masses: &[f64],
    centres: &[f64],
) -> bool
    requires { BenchRoom trailer (length numbers.now) (length words.now) (length masses.now) (length centres.now) (length groups.now) }
{
    let mut text: [u8; 17024] = [0; 17024];
    let end = write_group(
        trailer, groups, g, numbers, words, masses, centres, &mut text,
    );
    write_output(rt, b"mechanisms", &text[..end])
}

// The first line, and then group by group.
fn print_each(
    rt: &HostRuntime,
    trailer: Trailer,
    groups: &[u32],
    count: u32,
    numbers: &[f64],
    words: &[u32],
    masses: &[f64],
    centres: &[f64],
)
    requires { BenchRoom trailer (length numbers.now) (length words.now) (length masses.now) (length centres.now) (length groups.now) }
{
    if !print_first(rt, 0, count) {
        return;
    }
    for g in 0..count {
        if !print_group(rt, trailer, groups, g, numbers, words, masses, centres) {
            return;
        }
    }
}

// A file that has passed 1 to 4, with memory as long as its counts call for.
fn print_bench(
    rt: &HostRuntime,
    file: &[u8],
    trailer: Trailer,
    numbers: &mut [f64],
    words: &mut [u32],
    masses: &mut [f64],
    centres: &mut [f64],
    groups: &mut [u32],
)
    requires file_value { judged_of file.now ≡ going trailer }
    requires bench_room { BenchRoom trailer (length numbers.old) (length words.old) (length masses.old) (length centres.old) (length groups.old) }
{
    match read_bench(file, trailer, numbers, words, masses, centres, groups) {
        Err(refusal) => {
            print_first(rt, refusal.number(), 0);
        }
        Ok(count) => {
            print_each(rt, trailer, groups, count, numbers, words, masses, centres);
        }
    }
}

// Memory for what the program takes: 128 rows and 64 bodies.
fn print_passed(rt: &HostRuntime, file: &[u8], trailer: Trailer)
    requires { judged_of file.now ≡ going trailer }
{
    let mut numbers: [f64; 3456] = [0.0; 3456];
    let mut words: [u32; 1024] = [0; 1024];
    let mut masses: [f64; 640] = [0.0; 640];
    let mut centres: [f64; 192] = [0.0; 192];
    let mut groups: [u32; 128] = [0; 128];
    let rows = trailer.rows as usize;
    let bodies = trailer.bodies as usize;
    let row_numbers = 27 * rows;
    let row_words = 8 * rows;
    let mass_numbers = 10 * bodies;
    let centre_numbers = 3 * bodies;
    print_bench(
        rt,
        file,
        trailer,
        &mut numbers[..row_numbers],
        &mut words[..row_words],
        &mut masses[..mass_numbers],
        &mut centres[..centre_numbers],
        &mut groups[..rows],
    );
}

// A file has at most 65,536 bytes. One byte more is read, so that a longer one is refused whatever it begins with. Of a file that can't be read nothing is printed.
pub fn print_groups(rt: &HostRuntime) {
    let mut file: [u8; 65537] = [0; 65537];
    let Some(length) = read_input(rt, b"mechanisms", &mut file) else {
        return;
    };
    match judge_file(&file[..length]) {
        Ok(trailer) => print_passed(rt, &file[..length], trailer),
        Err(refusal) => {
            print_first(rt, refusal.number(), 0);
        }
    }
}
