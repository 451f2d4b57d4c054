// Where a refusal was met.
#[derive(Clone, Copy)]
pub enum Place {
    Row(u32),
    Body(u32),
    Rule(u32),
    Limit,
    None,
}
