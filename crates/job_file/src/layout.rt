// Sizes in a job file, in bytes, and what the program takes of one: document 01, "What a job is made of" (specs/Layout.antt has the places).

// A row: 27 doubles, then 8 words.
pub const ROW_BYTES: usize = 248;

// The doubles of a row, which its words follow.
pub const ROW_DOUBLES: usize = 216;

// A mass: 10 doubles,
pub const MASS_BYTES: usize = 80;

// and 3 more, its centre, where the trailer's spare is 1.
pub const CENTRE_BYTES: usize = 24;

pub const TRAILER_BYTES: usize = 48;

pub const MAX_BYTES: usize = 65536;

pub const MAX_ROWS: u32 = 128;

pub const MAX_BODIES: u32 = 64;
