// One word of a list of bytes. A byte past the end counts as 0.
ghost use Rattle.std.specs.Prelude.{◌≡◌, ◌+◌, ◌<◌, get_or};
ghost use Rattle.little_endian.specs.Words.{half_at, word_at};

#[tactic(auto, using(crate::proofs::Read::byte_past))]
fn byte(list: &[u8], at: usize) -> u64
    ensures value { result ≡ get_or list.now at 0 }
    ensures upper_bound { result < 256 }
{
    if at < list.len() {
        return u64::from(list[at]);
    }
    0
}

// Four bytes.
#[tactic(auto, unfolding(little_endian::specs::Words::half_at))]
pub fn half(list: &[u8], at: usize) -> u64
    requires { at < 4294967296 }
    ensures value { result ≡ half_at list.now at }
    ensures upper_bound { result < 4294967296 }
{
    byte(list, at)
        + 256 * byte(list, at + 1)
        + 65536 * byte(list, at + 2)
        + 16777216 * byte(list, at + 3)
}

// The word that begins at byte `at`.
#[tactic(auto, unfolding(little_endian::specs::Words::word_at))]
pub fn word(list: &[u8], at: usize) -> u64
    requires { at + 4 < 4294967296 }
    ensures { result ≡ word_at list.now at }
{
    half(list, at) + 4294967296 * half(list, at + 4)
}
