// What an accepted solve answers: PositionPcgResult of solver.rs.
#[derive(Clone, Copy, Debug)]
pub struct PositionPcgResult {
    pub converged: bool,
    pub iterations: u32,
    pub linear_residual_m: f64,
    pub angular_residual_rad: f64,
}
