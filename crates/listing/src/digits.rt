// Numbers as text.
ghost use Rattle.std.specs.Prelude.{◌≡◌, ◌+◌, ◌<◌, ◌≤◌, length};
ghost use Rattle.listing.specs.Written.{Room, Wrote};
ghost use Rattle.listing.specs.Digits.{decimal_digit, decimal, hexadecimal_digit, hexadecimal, number, double, doubles};

use crate::text::put_byte;

#[tactic(auto, unfolding(crate::specs::Digits::decimal_digit))]
fn decimal_digit(d: u32) -> u8
    requires { d < 10 }
    ensures { result ≡ decimal_digit d }
{
    48 + d as u8
}

// The digits of n: those of n / 10 and the last one.
pub fn put_decimal(out: &mut [u8], at: usize, n: u32) -> usize
    requires { Room out.old at (decimal n) }
    ensures { Wrote out.old at (decimal n) out.new result }
{
    let last = decimal_digit(n % 10);
    if n < 10 {
        return put_byte(out, at, last);
    }
    let next = put_decimal(out, at, n / 10);
    put_byte(out, next, last)
}

fn hexadecimal_digit(d: u64) -> u8
    requires { d < 16 }
    ensures { result ≡ hexadecimal_digit d }
{
    if d < 10 {
        return 48 + d as u8;
    }
    87 + d as u8
}

// All 16 digits, the highest first.
pub fn put_hexadecimal(out: &mut [u8], at: usize, bits: u64) -> usize
    requires { Room out.old at (hexadecimal bits) }
    ensures { Wrote out.old at (hexadecimal bits) out.new result }
{
    let mut next = at;
    for k in 0..16_u32 {
        let digit = hexadecimal_digit((bits >> (60 - 4 * k)) % 16);
        next = put_byte(out, next, digit);
    }
    next
}

// A space and a number.
pub fn put_number(out: &mut [u8], at: usize, n: u32) -> usize
    requires { Room out.old at (number n) }
    ensures { Wrote out.old at (number n) out.new result }
{
    let next = put_byte(out, at, b' ');
    put_decimal(out, next, n)
}

// A space and the bits of a double.
pub fn put_double(out: &mut [u8], at: usize, x: f64) -> usize
    requires { Room out.old at (double x) }
    ensures { Wrote out.old at (double x) out.new result }
{
    let next = put_byte(out, at, b' ');
    put_hexadecimal(out, next, binary64::to_bits(x))
}

// n doubles, from number `first` of the list on.
pub fn put_doubles(out: &mut [u8], at: usize, list: &[f64], first: usize, n: usize) -> usize
    requires { (first + n ≤ length list.now) × Room out.old at (doubles list.now first n) }
    ensures { Wrote out.old at (doubles list.now first n) out.new result }
{
    let mut next = at;
    for k in 0..n {
        next = put_double(out, next, list[first + k]);
    }
    next
}
