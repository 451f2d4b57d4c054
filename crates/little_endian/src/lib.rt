// Little-endian words in lent bytes: a number's first byte is its lowest. Doubles stand as their 64 bits.

#![tactic(auto)]

ghost use Rattle.std.specs.Prelude.{◌≡◌, ◌+◌, ◌*◌, ◌<◌, ◌≤◌, length};
ghost use Rattle.little_endian.specs.Words.{half_at, word_at, double_at, doubles_at, halves_at};

// Four bytes.
#[tactic(auto, unfolding(crate::specs::Words::half_at))]
pub fn half(bytes: &[u8], at: usize) -> u32
    requires { at + 4 ≤ length bytes.now }
    ensures { result ≡ half_at bytes.now at }
{
    u32::from(bytes[at])
        + 256 * u32::from(bytes[at + 1])
        + 65536 * u32::from(bytes[at + 2])
        + 16777216 * u32::from(bytes[at + 3])
}

// Eight bytes.
#[tactic(auto, unfolding(crate::specs::Words::word_at))]
pub fn word(bytes: &[u8], at: usize) -> u64
    requires { at + 8 ≤ length bytes.now }
    ensures { result ≡ word_at bytes.now at }
{
    u64::from(half(bytes, at)) + 4294967296 * u64::from(half(bytes, at + 4))
}

// The double that has these bits.
#[tactic(auto, unfolding(crate::specs::Words::double_at))]
pub fn double(bytes: &[u8], at: usize) -> f64
    requires { at + 8 ≤ length bytes.now }
    ensures { result ≡ double_at bytes.now at }
{
    binary64::from_bits(word(bytes, at))
}

// A double for each word.
pub fn read_doubles(bytes: &[u8], at: usize, out: &mut [f64])
    requires { at + 8 * length out.old ≤ length bytes.now }
    ensures { out.new ≡ doubles_at bytes.now at (length out.old) }
{
    for i in 0..out.len() {
        out[i] = double(bytes, at + 8 * i);
    }
}

// Of each word the low half.
pub fn read_halves(bytes: &[u8], at: usize, out: &mut [u32])
    requires { at + 8 * length out.old ≤ length bytes.now }
    ensures { out.new ≡ halves_at bytes.now at (length out.old) }
{
    for i in 0..out.len() {
        out[i] = half(bytes, at + 8 * i);
    }
}
