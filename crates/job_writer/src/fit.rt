// Refusals 2, 3 and 24 of the writer, each by itself: true where it does not apply. 4 is joint_refusals' `words_fit`.
ghost use Rattle.std.specs.Prelude.{◌≡◌, ◌==◌, ◌≤◌};
ghost use Rattle.std.specs.List.{list_all};
ghost use Rattle.job_writer.specs.Refusals.{limits_fit, head_fits, lengths_fit, sizes_fit, centres_fit};

use crate::head::JobHead;
use crate::parts::file_length;
use joint_refusals::counts_fit;

pub fn limits_fit(head: JobHead) -> bool
    ensures { result ≡ limits_fit head }
{
    (head.rows <= 128) & (head.bodies <= 64)
}

fn head_fits(head: JobHead) -> bool
    ensures { result ≡ head_fits head }
{
    let counts = counts_fit(head.rows, head.bodies, head.mode);
    counts & (head.layout <= 1)
}

fn lengths_fit(
    head: JobHead,
    numbers: usize,
    words: usize,
    masses: usize,
    centres: usize,
    out: usize,
) -> bool
    requires { (head.rows ≤ 128) × (head.bodies ≤ 64) × (head.layout ≤ 1) }
    ensures { result ≡ lengths_fit head numbers words masses centres out }
{
    let rows = head.rows as usize;
    let bodies = head.bodies as usize;
    let bytes = file_length(head.rows, head.bodies, head.layout) as usize;
    let table = (numbers == 27 * rows) & (words == 8 * rows) & (masses == 10 * bodies);
    table & (centres == 3 * bodies) & (out == bytes)
}

pub fn sizes_fit(
    head: JobHead,
    numbers: usize,
    words: usize,
    masses: usize,
    centres: usize,
    out: usize,
) -> bool
    requires { (head.rows ≤ 128) × (head.bodies ≤ 64) }
    ensures { result ≡ sizes_fit head numbers words masses centres out }
{
    if !head_fits(head) {
        return false;
    }
    lengths_fit(head, numbers, words, masses, centres, out)
}

// Has each number the bits of +0.0?
fn all_zero(centres: &[u64]) -> bool
    ensures { result ≡ list_all (λ centre. centre == 0) centres.now }
{
    centres.iter().all(|&centre| centre == 0)
}

pub fn centres_fit(centres: &[u64], layout: u32) -> bool
    ensures { result ≡ centres_fit centres.now layout }
{
    let zero = all_zero(centres);
    (layout == 1) | zero
}
