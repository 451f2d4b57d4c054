// The whole listing: of an accepted job, with its rows and bodies or with its margins, and of a refused one.
ghost use Rattle.std.specs.Prelude.{◌*◌, ◌≤◌, length, ◌++◌};
ghost use Rattle.listing.specs.Written.{Room, Wrote};
ghost use Rattle.listing.specs.Listing.{head_lines, listing_of, margin_listing, gap_listing, refused_listing, RulesBelow};
ghost use Rattle.listing.specs.Lines.{refused_row_line, refused_body_line, refused_limit_line};

use crate::lines::{
    body_lines, carried_line, close_line, gap_lines, margin_lines, measured_line,
    refused_body_line, refused_limit_line, refused_row_line, row_lines, solve_line,
};
use kapitsa_joint::Maxima;

// The first four lines, which stand at the front.
fn head_lines(
    count: u32,
    flag: bool,
    gap: Maxima,
    carried: Maxima,
    verdict: u32,
    out: &mut [u8],
) -> usize
    requires { Room out.old 0 (head_lines count flag gap carried verdict) }
    ensures { Wrote out.old 0 (head_lines count flag gap carried verdict) out.new result }
{
    let solve = solve_line(out, 0, 0, count, flag as u32);
    let measured = measured_line(out, solve, verdict, gap);
    let residual = carried_line(out, measured, carried);
    close_line(out, residual, verdict)
}

// Count and flag, the gap that the closing check measured, the residuals that the solve carried, the verdict or refusal of the check, the rows after the solve, the impulses and,
// where the file's spare is 1, the new centres.
// No listing of 128 rows and 64 bodies has more than 16,384 bytes.
pub fn write_listing(
    count: u32,
    flag: bool,
    gap: Maxima,
    carried: Maxima,
    verdict: u32,
    rows: u32,
    bodies: u32,
    numbers: &[f64],
    impulses: &[f64],
    spare: u32,
    centres: &[f64],
    out: &mut [u8],
) -> usize
    requires { (27 * rows ≤ length numbers.now) × (6 * bodies ≤ length impulses.now) × (3 * bodies ≤ length centres.now) × Room out.old 0 (listing_of count flag gap carried verdict rows bodies numbers.now impulses.now spare centres.now) }
    ensures { Wrote out.old 0 (listing_of count flag gap carried verdict rows bodies numbers.now impulses.now spare centres.now) out.new result }
{
    let head = head_lines(count, flag, gap, carried, verdict, out);
    let row = row_lines(out, head, numbers, rows);
    body_lines(out, row, impulses, spare, centres, bodies)
}

// The first lines, and the margins of a closed check: each row of its list and the number beside it.
pub fn write_margins(
    count: u32,
    flag: bool,
    gap: Maxima,
    carried: Maxima,
    verdict: u32,
    rows: u32,
    margin_rows: &[u32],
    margins: &[f64],
    out: &mut [u8],
) -> usize
    requires { (rows ≤ length margin_rows.now) × (rows ≤ length margins.now) × Room out.old 0 (margin_listing count flag gap carried verdict rows margin_rows.now margins.now) }
    ensures { Wrote out.old 0 (margin_listing count flag gap carried verdict rows margin_rows.now margins.now) out.new result }
{
    let head = head_lines(count, flag, gap, carried, verdict, out);
    if verdict != 1 {
        return head;
    }
    margin_lines(out, head, margin_rows, margins, rows as usize)
}

// The first lines and, where there is a verdict, each row's measured number beside the tolerance of its rule.
pub fn write_gaps(
    count: u32,
    flag: bool,
    gap: Maxima,
    carried: Maxima,
    verdict: u32,
    rows: u32,
    words: &[u32],
    gaps: &[f64],
    rule_numbers: &[u32],
    tolerances: &[f64],
    out: &mut [u8],
) -> usize
    requires rows_in_bounds { (8 * rows ≤ length words.now) × (rows ≤ length gaps.now) × (rows ≤ length rule_numbers.now) × (verdict ≤ 1 → RulesBelow rule_numbers.now rows (length tolerances.now)) }
    requires room { Room out.old 0 (gap_listing count flag gap carried verdict rows words.now gaps.now rule_numbers.now tolerances.now) }
    ensures { Wrote out.old 0 (gap_listing count flag gap carried verdict rows words.now gaps.now rule_numbers.now tolerances.now) out.new result }
{
    let head = head_lines(count, flag, gap, carried, verdict, out);
    if 1 < verdict {
        return head;
    }
    gap_lines(out, head, words, gaps, rule_numbers, tolerances, rows)
}

pub fn write_refusal(refusal: u32, out: &mut [u8]) -> usize
    requires { Room out.old 0 (refused_listing refusal) }
    ensures { Wrote out.old 0 (refused_listing refusal) out.new result }
{
    solve_line(out, 0, refusal, 0, 0)
}

// A refusal and its first row, with the owner,
pub fn write_refused_row(refusal: u32, row: u32, owner: u32, out: &mut [u8]) -> usize
    requires { Room out.old 0 (refused_listing refusal ++ refused_row_line row owner) }
    ensures { Wrote out.old 0 (refused_listing refusal ++ refused_row_line row owner) out.new result }
{
    let next = write_refusal(refusal, out);
    refused_row_line(out, next, row, owner)
}

// its first body,
pub fn write_refused_body(refusal: u32, body: u32, out: &mut [u8]) -> usize
    requires { Room out.old 0 (refused_listing refusal ++ refused_body_line body) }
    ensures { Wrote out.old 0 (refused_listing refusal ++ refused_body_line body) out.new result }
{
    let next = write_refusal(refusal, out);
    refused_body_line(out, next, body)
}

// or the limit.
pub fn write_refused_limit(refusal: u32, out: &mut [u8]) -> usize
    requires { Room out.old 0 (refused_listing refusal ++ refused_limit_line) }
    ensures { Wrote out.old 0 (refused_listing refusal ++ refused_limit_line) out.new result }
{
    let next = write_refusal(refusal, out);
    refused_limit_line(out, next)
}
