// The trailer, the last 48 bytes of a job file.
ghost use Rattle.std.specs.Prelude.{◌≡◌, ◌≤◌, length};
ghost use Rattle.job_file.specs.File.{trailer_of};

use crate::layout::TRAILER_BYTES;
use kapitsa_joint::JointTolerance;
use little_endian::{double, half};

#[derive(Clone, Copy)]
pub struct Trailer {
    pub rows: u32,
    pub bodies: u32,
    pub limit: u32,
    pub mode: u32,
    pub row_offset: u32,
    pub mass_offset: u32,
    pub tolerance: JointTolerance,
    pub file_length: u32,
    pub spare: u32,
}

#[tactic(auto, unfolding(crate::specs::File::trailer_of))]
pub fn read_trailer(file: &[u8]) -> Trailer
    requires { 48 ≤ length file.now }
    ensures { result ≡ trailer_of file.now }
{
    let at = file.len() - TRAILER_BYTES;
    Trailer {
        rows: half(file, at),
        bodies: half(file, at + 4),
        limit: half(file, at + 8),
        mode: half(file, at + 12),
        row_offset: half(file, at + 16),
        mass_offset: half(file, at + 20),
        tolerance: JointTolerance {
            linear_m: double(file, at + 24),
            angular_rad: double(file, at + 32),
        },
        file_length: half(file, at + 40),
        spare: half(file, at + 44),
    }
}
