// The lines of the listing.
ghost use Rattle.std.specs.Prelude.{◌≡◌, ◌+◌, ◌*◌, ◌≤◌, length};
ghost use Rattle.listing.specs.Written.{Room, Wrote};
ghost use Rattle.listing.specs.Lines.{solve_line, maxima_words, gap_line, no_gap_line, carried_line, close_line, row_line, centre_count, body_line, margin_line, row_gap_line, refused_row_line, refused_body_line, refused_limit_line};
ghost use Rattle.listing.specs.Listing.{measured_line, row_lines, body_lines, margin_lines, gap_lines, RulesBelow};

use crate::digits::{put_double, put_doubles, put_number};
use crate::text::{put_byte, put_text};
use kapitsa_joint::Maxima;

pub fn solve_line(out: &mut [u8], at: usize, refusal: u32, count: u32, flag: u32) -> usize
    requires { Room out.old at (solve_line refusal count flag) }
    ensures { Wrote out.old at (solve_line refusal count flag) out.new result }
{
    let a = put_text(out, at, b"solve");
    let b = put_number(out, a, refusal);
    let c = put_number(out, b, count);
    let d = put_number(out, c, flag);
    put_byte(out, d, b'\n')
}

fn put_maxima(out: &mut [u8], at: usize, m: Maxima) -> usize
    requires { Room out.old at (maxima_words m) }
    ensures { Wrote out.old at (maxima_words m) out.new result }
{
    let a = put_double(out, at, m.linear);
    put_double(out, a, m.angular)
}

pub fn gap_line(out: &mut [u8], at: usize, gap: Maxima) -> usize
    requires { Room out.old at (gap_line gap) }
    ensures { Wrote out.old at (gap_line gap) out.new result }
{
    let a = put_text(out, at, b"gap");
    let b = put_maxima(out, a, gap);
    put_byte(out, b, b'\n')
}

pub fn no_gap_line(out: &mut [u8], at: usize) -> usize
    requires { Room out.old at no_gap_line }
    ensures { Wrote out.old at no_gap_line out.new result }
{
    put_text(out, at, b"gap none\n")
}

pub fn measured_line(out: &mut [u8], at: usize, verdict: u32, gap: Maxima) -> usize
    requires { Room out.old at (measured_line verdict gap) }
    ensures { Wrote out.old at (measured_line verdict gap) out.new result }
{
    if verdict <= 1 {
        return gap_line(out, at, gap);
    }
    no_gap_line(out, at)
}

pub fn carried_line(out: &mut [u8], at: usize, carried: Maxima) -> usize
    requires { Room out.old at (carried_line carried) }
    ensures { Wrote out.old at (carried_line carried) out.new result }
{
    let a = put_text(out, at, b"carried");
    let b = put_maxima(out, a, carried);
    put_byte(out, b, b'\n')
}

pub fn close_line(out: &mut [u8], at: usize, verdict: u32) -> usize
    requires { Room out.old at (close_line verdict) }
    ensures { Wrote out.old at (close_line verdict) out.new result }
{
    let a = put_text(out, at, b"close");
    let b = put_number(out, a, verdict);
    put_byte(out, b, b'\n')
}

pub fn row_line(out: &mut [u8], at: usize, i: u32, multiplier: f64) -> usize
    requires { Room out.old at (row_line i multiplier) }
    ensures { Wrote out.old at (row_line i multiplier) out.new result }
{
    let a = put_text(out, at, b"row");
    let b = put_number(out, a, i);
    let c = put_double(out, b, multiplier);
    put_byte(out, c, b'\n')
}

// The centre numbers at the end of a body line: 3 where the file has centres.
fn centre_count(spare: u32) -> usize
    ensures { result ≡ centre_count spare }
{
    if spare == 1 {
        return 3;
    }
    0
}

pub fn body_line(
    out: &mut [u8],
    at: usize,
    b: u32,
    impulses: &[f64],
    spare: u32,
    centres: &[f64],
) -> usize
    requires { (6 * b + 6 ≤ length impulses.now) × (3 * b + 3 ≤ length centres.now) × Room out.old at (body_line b impulses.now spare centres.now) }
    ensures { Wrote out.old at (body_line b impulses.now spare centres.now) out.new result }
{
    let place = b as usize;
    let name = put_text(out, at, b"body");
    let number = put_number(out, name, b);
    let six = put_doubles(out, number, impulses, 6 * place, 6);
    let count = centre_count(spare);
    let centre = put_doubles(out, six, centres, 3 * place, count);
    put_byte(out, centre, b'\n')
}

pub fn row_lines(out: &mut [u8], at: usize, numbers: &[f64], rows: u32) -> usize
    requires { (27 * rows ≤ length numbers.now) × Room out.old at (row_lines numbers.now rows) }
    ensures { Wrote out.old at (row_lines numbers.now rows) out.new result }
{
    let mut next = at;
    for i in 0..rows {
        next = row_line(out, next, i, numbers[27 * (i as usize) + 24]);
    }
    next
}

pub fn body_lines(
    out: &mut [u8],
    at: usize,
    impulses: &[f64],
    spare: u32,
    centres: &[f64],
    bodies: u32,
) -> usize
    requires { (6 * bodies ≤ length impulses.now) × (3 * bodies ≤ length centres.now) × Room out.old at (body_lines impulses.now spare centres.now bodies) }
    ensures { Wrote out.old at (body_lines impulses.now spare centres.now bodies) out.new result }
{
    let mut next = at;
    for b in 0..bodies {
        next = body_line(out, next, b, impulses, spare, centres);
    }
    next
}

pub fn margin_line(out: &mut [u8], at: usize, i: u32, x: f64) -> usize
    requires { Room out.old at (margin_line i x) }
    ensures { Wrote out.old at (margin_line i x) out.new result }
{
    let a = put_text(out, at, b"margin");
    let b = put_number(out, a, i);
    let c = put_double(out, b, x);
    put_byte(out, c, b'\n')
}

pub fn margin_lines(
    out: &mut [u8],
    at: usize,
    margin_rows: &[u32],
    margins: &[f64],
    n: usize,
) -> usize
    requires { (n ≤ length margin_rows.now) × (n ≤ length margins.now) × Room out.old at (margin_lines margin_rows.now margins.now n) }
    ensures { Wrote out.old at (margin_lines margin_rows.now margins.now n) out.new result }
{
    let mut next = at;
    for k in 0..n {
        next = margin_line(out, next, margin_rows[k], margins[k]);
    }
    next
}

pub fn row_gap_line(
    out: &mut [u8],
    at: usize,
    i: u32,
    owner: u32,
    x: f64,
    tolerance: f64,
    within: u32,
) -> usize
    requires { Room out.old at (row_gap_line i owner x tolerance within) }
    ensures { Wrote out.old at (row_gap_line i owner x tolerance within) out.new result }
{
    let a = put_text(out, at, b"measured");
    let b = put_number(out, a, i);
    let c = put_number(out, b, owner);
    let d = put_double(out, c, x);
    let e = put_double(out, d, tolerance);
    let f = put_number(out, e, within);
    put_byte(out, f, b'\n')
}

pub fn gap_lines(
    out: &mut [u8],
    at: usize,
    words: &[u32],
    gaps: &[f64],
    rule_numbers: &[u32],
    tolerances: &[f64],
    rows: u32,
) -> usize
    requires rows_in_bounds { (8 * rows ≤ length words.now) × (rows ≤ length gaps.now) × (rows ≤ length rule_numbers.now) × RulesBelow rule_numbers.now rows (length tolerances.now) }
    requires room { Room out.old at (gap_lines words.now gaps.now rule_numbers.now tolerances.now rows) }
    ensures { Wrote out.old at (gap_lines words.now gaps.now rule_numbers.now tolerances.now rows) out.new result }
{
    let mut next = at;
    for i in 0..rows {
        let place = i as usize;
        let x = gaps[place];
        let rule = rule_numbers[place] as usize;
        let tolerance = tolerances[rule];
        let within = (x <= tolerance) as u32;
        next = row_gap_line(out, next, i, words[8 * place + 6], x, tolerance, within);
    }
    next
}

pub fn refused_row_line(out: &mut [u8], at: usize, i: u32, owner: u32) -> usize
    requires { Room out.old at (refused_row_line i owner) }
    ensures { Wrote out.old at (refused_row_line i owner) out.new result }
{
    let a = put_text(out, at, b"refused row");
    let b = put_number(out, a, i);
    let c = put_number(out, b, owner);
    put_byte(out, c, b'\n')
}

pub fn refused_body_line(out: &mut [u8], at: usize, b: u32) -> usize
    requires { Room out.old at (refused_body_line b) }
    ensures { Wrote out.old at (refused_body_line b) out.new result }
{
    let name = put_text(out, at, b"refused body");
    let number = put_number(out, name, b);
    put_byte(out, number, b'\n')
}

pub fn refused_limit_line(out: &mut [u8], at: usize) -> usize
    requires { Room out.old at refused_limit_line }
    ensures { Wrote out.old at refused_limit_line out.new result }
{
    put_text(out, at, b"refused limit\n")
}
