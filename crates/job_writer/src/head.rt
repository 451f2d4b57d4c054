// What the trailer says of a job, the tolerances by their 64 bits. Layout 1 has centres, 0 is the old one.
#[derive(Clone, Copy)]
pub struct JobHead {
    pub rows: u32,
    pub bodies: u32,
    pub limit: u32,
    pub mode: u32,
    pub layout: u32,
    pub linear: u64,
    pub angular: u64,
}
