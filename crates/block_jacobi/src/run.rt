// Runs of rows with one owner.
ghost use Rattle.std.specs.Prelude.{◌≡◌, ◌<◌, length};
ghost use Rattle.block_jacobi.specs.Runs.{owner_in, RunIs};

// How many rows from `start` on have its owner.
pub fn run_length(owners: &[u32], start: usize) -> usize
    requires { start < length owners.now }
    ensures { RunIs (owner_in owners.now) start (length owners.now) result }
{
    let owner = owners[start];
    let left = owners.len() - start;
    for k in 0..left {
        if owners[start + k] != owner {
            return k;
        }
    }
    left
}
