// Records of words: two bits of code for each word, then the bytes that the codes call for. A byte past the end of the list counts as 0.
ghost use Rattle.std.specs.Prelude.{◌≡◌, ◌+◌, ◌*◌, ◌<◌, ◌≤◌, length};
ghost use Rattle.packed_list.specs.Packed.{code_in, code_at, size_of, coded_of, before_of, record_of, group_of};

use crate::words::{half, word};

// The code of the word k of four in a byte of codes.
#[tactic(auto, unfolding(crate::specs::Packed::code_in))]
fn code_in(codes: u64, k: usize) -> u64
    requires { k < 4 }
    ensures { result ≡ code_in codes k }
{
    match k {
        0 => codes % 4,
        1 => codes / 4 % 4,
        2 => codes / 16 % 4,
        _ => codes / 64 % 4,
    }
}

// The code of word i of the record at `at`.
#[tactic(auto, unfolding(crate::specs::Packed::code_at))]
fn code(list: &[u8], at: usize, i: usize) -> u64
    requires { at + i < 4294967296 }
    ensures { result ≡ code_at list.now at i }
{
    code_in(half(list, at + i / 4) % 256, i % 4)
}

// How many bytes a code calls for.
#[tactic(auto, unfolding(crate::specs::Packed::size_of))]
fn size_of(code: u64) -> usize
    ensures value { result ≡ size_of code }
    ensures upper_bound { result ≤ 8 }
{
    match code {
        0 => 0,
        2 => 8,
        _ => 2,
    }
}

// The word of a code, by the bytes at `at` and the word of the record before.
#[tactic(auto, unfolding(crate::specs::Packed::coded_of))]
fn coded(list: &[u8], at: usize, code: u64, before: u64) -> u64
    requires { at + 4 < 4294967296 }
    ensures { result ≡ coded_of list.now at code before }
{
    match code {
        0 => before,
        1 => 281474976710656 * (half(list, at) % 65536),
        2 => word(list, at),
        _ => half(list, at) % 65536,
    }
}

// The word that stands `size` words before word i; 0 in the first record.
#[tactic(auto, unfolding(crate::specs::Packed::before_of))]
fn before(words: &[u64], size: usize, i: usize) -> u64
    requires { i < length words.now }
    ensures { result ≡ before_of words.now size i }
{
    if i < size {
        return 0;
    }
    words[i - size]
}

// One record, from word `from` on. The place after it.
fn unpack_record(list: &[u8], at: usize, size: usize, from: usize, words: &mut [u64]) -> usize
    requires { (at + 9 * size < 4294967288) × (from + size ≤ length words.old) × (length words.old < 4294967296) }
    ensures words_after { (result, words.new) ≡ record_of list.now at size from words.old size }
    ensures upper_bound { result ≤ at + 9 * size }
{
    let mut place = at + (size + 3) / 4;
    for i in 0..size {
        let c = code(list, at, i);
        let w = coded(list, place, c, before(words, size, from + i));
        words[from + i] = w;
        place += size_of(c);
    }
    place
}

// A group of `count` records of `size` words. The place after it.
pub fn unpack(list: &[u8], at: usize, size: usize, count: usize, words: &mut [u64]) -> usize
    requires { (at < 4000000000) × (length words.old ≡ size * count) × (length words.old ≤ 20000) }
    ensures words_after { (result, words.new) ≡ group_of list.now at size words.old count }
    ensures upper_bound { result ≤ at + 9 * length words.old }
{
    let mut place = at;
    let mut from = 0;
    for i in 0..count {
        place = unpack_record(list, place, size, from, words);
        from += size;
    }
    place
}
