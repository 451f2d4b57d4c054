// One record: 32 little-endian words of 64 bits, as oracle/src/inertia.rs lays them out.
ghost use Rattle.std.specs.Prelude.{◌+◌, ◌≤◌, length};

use crate::tally::{DIFFER, SIGN, Seen};
use inertia::{Cholesky3, factor_spd, inverse_spd, solve};
use kapitsa_math::{Mat3, Vec3};
use little_endian::{double, word};

// A byte of word 9: the numbers of factor, solve and inverse, and 1 where the first nine words are the rows of a factor.
fn byte(bytes: &[u8], at: usize) -> u32
    requires { at + 1 ≤ length bytes.now }
{
    u32::from(bytes[at])
}

fn vec(bytes: &[u8], at: usize) -> Vec3
    requires { at + 24 ≤ length bytes.now }
{
    Vec3 {
        x: double(bytes, at),
        y: double(bytes, at + 8),
        z: double(bytes, at + 16),
    }
}

fn same(a: u32, b: u32) -> u32 {
    if a == b { 0 } else { DIFFER }
}

fn exact(x: f64, bits: u64) -> u32 {
    if binary64::to_bits(x) == bits {
        0
    } else {
        DIFFER
    }
}

// The same bits, or two zeros: the Rust's sum may begin at -0.0.
fn alike(x: f64, bits: u64) -> u32 {
    let zeros = (x == 0.0) & (binary64::from_bits(bits) == 0.0);
    if zeros & (binary64::to_bits(x) != bits) {
        return SIGN;
    }
    exact(x, bits)
}

fn vec_alike(bytes: &[u8], at: usize, v: Vec3) -> u32
    requires { at + 24 ≤ length bytes.now }
{
    let x = alike(v.x, word(bytes, at));
    let y = alike(v.y, word(bytes, at + 8));
    let z = alike(v.z, word(bytes, at + 16));
    x | y | z
}

fn vec_exact(bytes: &[u8], at: usize, v: Vec3) -> u32
    requires { at + 24 ≤ length bytes.now }
{
    let x = exact(v.x, word(bytes, at));
    let y = exact(v.y, word(bytes, at + 8));
    let z = exact(v.z, word(bytes, at + 16));
    x | y | z
}

// Words 10 to 16: the triangle without what stands above its diagonal, which is +0.0, and the scale.
fn triangle_seen(bytes: &[u8], f: Cholesky3) -> u32
    requires { 256 ≤ length bytes.now }
{
    let first = f.first;
    let second = f.second;
    let third = f.third;
    let diagonal = exact(first.x, word(bytes, 80)) | exact(second.y, word(bytes, 96));
    let below = alike(second.x, word(bytes, 88));
    let above = exact(first.y, 0) | exact(first.z, 0) | exact(second.z, 0);
    let last = vec_alike(bytes, 104, third);
    diagonal | below | above | last | exact(f.scale, word(bytes, 128))
}

// Words 17 to 19 are the right-hand side, 20 to 22 the solution.
fn solve_seen(bytes: &[u8], f: Cholesky3) -> u32
    requires { 256 ≤ length bytes.now }
{
    let number = byte(bytes, 73);
    match solve(f, vec(bytes, 136)) {
        Ok(v) => same(0, number) | vec_alike(bytes, 160, v),
        Err(error) => same(error.number(), number),
    }
}

fn factor_seen(bytes: &[u8], m: Mat3) -> u32
    requires { 256 ≤ length bytes.now }
{
    let number = byte(bytes, 72);
    match factor_spd(m) {
        Ok(f) => same(0, number) | triangle_seen(bytes, f) | solve_seen(bytes, f),
        Err(error) => same(error.number(), number),
    }
}

// Words 23 to 31, by columns, with no allowance.
fn inverse_seen(bytes: &[u8], m: Mat3) -> u32
    requires { 256 ≤ length bytes.now }
{
    let number = byte(bytes, 74);
    match inverse_spd(m) {
        Ok(i) => columns_seen(bytes, i) | same(0, number),
        Err(error) => same(error.number(), number),
    }
}

fn columns_seen(bytes: &[u8], i: Mat3) -> u32
    requires { 256 ≤ length bytes.now }
{
    let x = i.x;
    let y = i.y;
    let z = i.z;
    vec_exact(bytes, 184, x) | vec_exact(bytes, 208, y) | vec_exact(bytes, 232, z)
}

// A factor by hand has no sum in it, so its solution has no allowance.
fn by_hand_seen(bytes: &[u8]) -> Seen
    requires { 256 ≤ length bytes.now }
{
    let compared = solve_seen(
        bytes,
        Cholesky3 {
            first: vec(bytes, 0),
            second: vec(bytes, 24),
            third: vec(bytes, 48),
            scale: double(bytes, 128),
        },
    );
    Seen {
        by_hand: true,
        number: byte(bytes, 73),
        compared: same(compared, 0),
    }
}

pub fn seen(bytes: &[u8]) -> Seen
    requires { 256 ≤ length bytes.now }
{
    if byte(bytes, 75) == 1 {
        return by_hand_seen(bytes);
    }
    let m = Mat3 {
        x: vec(bytes, 0),
        y: vec(bytes, 24),
        z: vec(bytes, 48),
    };
    Seen {
        by_hand: false,
        number: byte(bytes, 74),
        compared: factor_seen(bytes, m) | inverse_seen(bytes, m),
    }
}
