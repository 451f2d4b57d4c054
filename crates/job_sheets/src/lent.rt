// A job through the functions for C, in memory as a caller in C lends it: that of 8 rows and 4 bodies in mode 1, and of no other job.
ghost use Rattle.std.specs.Prelude.{◌≤◌, length};

use job_file::{Trailer, read_job};
use kapitsa_c::{kapitsa_closing_check, kapitsa_solve_position};
use kapitsa_joint::Maxima;
use listing::{write_listing, write_refusal};

fn solved(
    trailer: Trailer,
    numbers: &mut [f64],
    words: &[u32],
    masses: &[f64],
    centres: &[f64],
    solution: &mut [f64],
    impulses: &mut [f64],
    new_centres: &mut [f64],
    counts: &mut [u32],
    maxima: &mut [f64],
) -> u32 {
    let mut rule_numbers: [u32; 8] = [0; 8];
    let mut jacobians: [f64; 96] = [0.0; 96];
    let mut links: [u32; 16] = [0; 16];
    let mut tolerances: [f64; 8] = [0.0; 8];
    let mut diagonal: [f64; 8] = [0.0; 8];
    let mut residual: [f64; 8] = [0.0; 8];
    let mut pending: [f64; 8] = [0.0; 8];
    let mut direction: [f64; 8] = [0.0; 8];
    let mut product: [f64; 8] = [0.0; 8];
    let mut body_impulses: [f64; 24] = [0.0; 24];
    let mut pattern: [u32; 37] = [0; 37];
    let mut order: [u32; 64] = [0; 64];
    let mut values: [f64; 28] = [0.0; 28];
    kapitsa_solve_position(
        numbers,
        words,
        masses,
        centres,
        &[0, 0, 255, 1, 0, 255],
        &[trailer.tolerance.linear_m, trailer.tolerance.angular_rad],
        trailer.rows,
        trailer.bodies,
        trailer.limit,
        trailer.mode,
        0.0,
        solution,
        impulses,
        new_centres,
        &mut rule_numbers,
        counts,
        maxima,
        &mut jacobians,
        &mut links,
        &mut tolerances,
        &mut diagonal,
        &mut residual,
        &mut pending,
        &mut direction,
        &mut product,
        &mut body_impulses,
        &mut pattern,
        &mut order,
        &mut values,
    )
}

// The verdict, or the refusal's number; the measured gap into `gap`.
fn verdict(
    trailer: Trailer,
    numbers: &[f64],
    words: &[u32],
    masses: &[f64],
    centres: &[f64],
    multipliers: &[f64],
    gap: &mut [f64],
) -> u32 {
    let mut told: [u32; 1] = [0; 1];
    let mut rule_numbers: [u32; 8] = [0; 8];
    let mut impulses: [f64; 24] = [0.0; 24];
    let mut size_impulses: [f64; 24] = [0.0; 24];
    let mut values: [f64; 8] = [0.0; 8];
    let mut sizes: [f64; 8] = [0.0; 8];
    let refusal = kapitsa_closing_check(
        numbers,
        words,
        masses,
        centres,
        &[0, 0, 255, 1, 0, 255],
        &[trailer.tolerance.linear_m, trailer.tolerance.angular_rad],
        trailer.rows,
        trailer.bodies,
        multipliers,
        &mut rule_numbers,
        &mut told,
        gap,
        &mut impulses,
        &mut size_impulses,
        &mut values,
        &mut sizes,
    );
    if refusal == 0 {
        return told[0];
    }
    refusal
}

// The sheet of an accepted job.
fn write_accepted(
    count: u32,
    flag: u32,
    gap: Maxima,
    carried: Maxima,
    closes: u32,
    numbers: &[f64],
    impulses: &[f64],
    spare: u32,
    new_centres: &[f64],
    out: &mut [u8],
) -> usize
    requires { (216 ≤ length numbers.now) × (24 ≤ length impulses.now) × (12 ≤ length new_centres.now) × (16384 ≤ length out.old) }
    ensures { result ≤ length out.old }
{
    write_listing(
        count,
        flag == 1,
        gap,
        carried,
        closes,
        8,
        4,
        numbers,
        impulses,
        spare,
        new_centres,
        out,
    )
}

// The sheet of what is told.
fn write_told(
    trailer: Trailer,
    numbers: &mut [f64],
    words: &[u32],
    masses: &[f64],
    centres: &[f64],
    out: &mut [u8],
) -> usize
    requires { (216 ≤ length numbers.old) × (16384 ≤ length out.old) }
    ensures { result ≤ length out.old }
{
    let mut solution: [f64; 8] = [0.0; 8];
    let mut impulses: [f64; 24] = [0.0; 24];
    let mut new_centres: [f64; 12] = [0.0; 12];
    let mut counts: [u32; 2] = [0; 2];
    let mut maxima: [f64; 2] = [0.0; 2];
    let refusal = solved(
        trailer,
        numbers,
        words,
        masses,
        centres,
        &mut solution,
        &mut impulses,
        &mut new_centres,
        &mut counts,
        &mut maxima,
    );
    if refusal != 0 {
        return write_refusal(refusal, out);
    }
    let mut gap: [f64; 2] = [0.0; 2];
    let closes = verdict(
        trailer, numbers, words, masses, centres, &solution, &mut gap,
    );
    write_accepted(
        counts[0],
        counts[1],
        Maxima {
            linear: gap[0],
            angular: gap[1],
        },
        Maxima {
            linear: maxima[0],
            angular: maxima[1],
        },
        closes,
        numbers,
        &impulses,
        trailer.spare,
        &new_centres,
        out,
    )
}

pub fn print_lent(rt: &HostRuntime, file: &[u8], text: &mut [u8])
    requires { 16384 ≤ length text.old }
{
    let mut numbers: [f64; 216] = [0.0; 216];
    let mut words: [u32; 64] = [0; 64];
    let mut masses: [f64; 40] = [0.0; 40];
    let mut centres: [f64; 12] = [0.0; 12];
    let Ok(trailer) = read_job(file, &mut numbers, &mut words, &mut masses, &mut centres) else {
        return;
    };
    let end = write_told(trailer, &mut numbers, &words, &masses, &centres, text);
    let _ = rt.write_all(&text[..end]);
}
