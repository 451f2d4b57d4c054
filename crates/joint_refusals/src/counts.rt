// Refusal 3, of the counts and the mode: true where it does not apply.
ghost use Rattle.std.specs.Prelude.{◌≡◌};
ghost use Rattle.joint_refusals.specs.Counts.{table_counts_fit, counts_fit};

pub fn table_counts_fit(rows: u32, bodies: u32) -> bool
    ensures { result ≡ table_counts_fit rows bodies }
{
    (rows <= 512) & (bodies <= 256)
}

pub fn counts_fit(rows: u32, bodies: u32, mode: u32) -> bool
    ensures { result ≡ counts_fit rows bodies mode }
{
    table_counts_fit(rows, bodies) & (mode <= 2)
}
