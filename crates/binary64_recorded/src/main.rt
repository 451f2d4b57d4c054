// Replays the recorded list of what Rust's f64 functions give (oracle/src/binary64_list.rs has its layout and makes it) through `binary64`,
// and prints how many records there were and how many differ.

#![tactic(auto)]

ghost use Rattle.std.specs.Prelude.{◌≡◌, ◌+◌, ◌≤◌, length};

use little_endian::word;
use program_io::read_full;

const RECORD: usize = 40;

const REFUSED: u64 = 0xffff_ffff_ffff_ffff;

const NAN: u64 = 0x7ff8_0000_0000_0000;

#[derive(Clone, Copy, Debug, PartialEq, Eq)]
struct Record {
    input: u64,
    root: u64,
    size: u64,
    class: u64,
    larger: u64,
}

#[derive(Clone, Copy, Debug, PartialEq, Eq)]
struct Tally {
    records: u32,
    differ: u32,
    refused: u32,
}

fn record_at(list: &[u8], at: usize) -> Record
    requires { at + 40 ≤ length list.now }
{
    Record {
        input: word(list, at),
        root: word(list, at + 8),
        size: word(list, at + 16),
        class: word(list, at + 24),
        larger: word(list, at + 32),
    }
}

// The bits of the root, or all ones for refusal 19.
fn root_bits(x: f64) -> u64 {
    match binary64::root(x) {
        Ok(y) => binary64::to_bits(y),
        Err(_) => REFUSED,
    }
}

fn class_of(x: f64) -> u64 {
    if binary64::is_nan(x) {
        return 1;
    }
    if binary64::is_finite(x) { 2 } else { 0 }
}

// The bits come back, and a NaN's as the one pattern.
fn bits_agree(bits: u64, x: f64) -> bool {
    let back = binary64::to_bits(x);
    if binary64::is_nan_bits(bits) {
        return back == NAN;
    }
    back == bits
}

// Rust ignores a NaN in max; the port's max is not asked then.
fn larger_agrees(x: f64, y: f64, larger: u64) -> bool {
    if binary64::is_nan(x) {
        return true;
    }
    if binary64::is_nan(y) {
        return true;
    }
    binary64::to_bits(binary64::max(x, y)) == larger
}

fn agrees(r: Record, next: u64) -> bool {
    let x = binary64::from_bits(r.input);
    let y = binary64::from_bits(next);
    let root = root_bits(x) == r.root;
    let size = binary64::to_bits(binary64::abs(x)) == r.size;
    let class = class_of(x) == r.class;
    let bits = bits_agree(r.input, x);
    let larger = larger_agrees(x, y, r.larger);
    root & size & class & bits & larger
}

// One more where the test holds.
fn more(n: u32, holds: bool) -> u32 {
    if holds {
        std::num::wrapping_add_u32(n, 1)
    } else {
        n
    }
}

fn counted(t: Tally, r: Record, next: u64) -> Tally {
    Tally {
        records: more(t.records, true),
        differ: more(t.differ, !agrees(r, next)),
        refused: more(t.refused, r.root == REFUSED),
    }
}

// Every record of the list against the next one, and the last against the first.
fn list_counted(list: &[u8]) -> Tally {
    let mut tally = Tally {
        records: 0,
        differ: 0,
        refused: 0,
    };
    for k in 0..list.len() / RECORD {
        let at = k * RECORD;
        let mut next = word(list, 0);
        if 2 * RECORD <= list.len() - at {
            next = word(list, at + RECORD);
        }
        tally = counted(tally, record_at(list, at), next);
    }
    tally
}

fn line(rt: &HostRuntime, n: u32, text: &[u8]) {
    let _ = print!(rt; "{n}");
    let _ = rt.write_all(text);
}

// Room for the list. The contract gives its length alone: that is all that lending it needs.
fn room() -> [u8; 192000]
    ensures { 192000 ≡ length result }
{
    [0; 192000]
}

fn main(rt: HostRuntime) {
    let mut space = room();
    let n = read_full(&rt, &mut space);
    let tally = list_counted(&space[..n]);
    line(&rt, tally.records, b" records\n");
    line(&rt, tally.refused, b" refused by 19\n");
    line(&rt, tally.differ, b" differ\n");
}
