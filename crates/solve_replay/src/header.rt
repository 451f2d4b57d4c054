// The first 64 bytes of a job: what is solved, and the recorded answer's numbers.
ghost use Rattle.std.specs.Prelude.{◌≡◌, ◌+◌, ◌<◌};
ghost use Rattle.little_endian.specs.Words.{half_at};
ghost use Rattle.solve_replay.specs.Job.{header_of};

use packed_list::{half, word};

#[derive(Clone, Copy)]
pub struct Header {
    pub rows: u32,
    pub bodies: u32,
    pub limit: u32,
    pub mode: u32,
    pub refusal: u32,
    pub count: u32,
    pub flag: u32,
    pub linear_tolerance: u64,
    pub angular_tolerance: u64,
    pub linear_maximum: u64,
    pub angular_maximum: u64,
}

fn short(list: &[u8], at: usize) -> u32
    requires { at < 4294967296 }
    ensures { result ≡ half_at list.now at }
{
    half(list, at) as u32
}

pub fn read_header(list: &[u8], at: usize) -> Header
    requires { at + 64 < 4294967296 }
    ensures { result ≡ header_of list.now at }
{
    Header {
        rows: short(list, at),
        bodies: short(list, at + 4),
        limit: short(list, at + 8),
        mode: short(list, at + 12),
        refusal: short(list, at + 16),
        count: short(list, at + 20),
        flag: short(list, at + 24),
        linear_tolerance: word(list, at + 32),
        angular_tolerance: word(list, at + 40),
        linear_maximum: word(list, at + 48),
        angular_maximum: word(list, at + 56),
    }
}
