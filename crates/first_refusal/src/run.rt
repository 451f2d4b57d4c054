// Refusal 11: a run of rows with one owner is at most six rows, all on one pair of bodies.
ghost use Rattle.std.specs.Prelude.{◌≡◌, ◌+◌, ◌*◌, ◌<◌, ◌≤◌, length};
ghost use Rattle.loops.specs.Every.{every};
ghost use Rattle.block_jacobi.specs.Runs.{begins, run_length};
ghost use Rattle.first_refusal.specs.Run.{owner_at, pair_at, run_in};

// How many rows from `start` on have its owner.
fn run_length(words: &[u32], rows: usize, start: usize) -> usize
    requires { (8 * rows ≤ length words.now) × (start < rows) }
    ensures { result ≡ run_length (owner_at words.now) start rows }
{
    let owner = words[8 * start + 6];
    let left = rows - start;
    for k in 0..left {
        if words[8 * (start + k) + 6] != owner {
            return k;
        }
    }
    left
}

// Whether `len` rows from `start` on have its bodies.
fn one_pair(words: &[u32], start: usize, len: usize) -> bool
    requires { (8 * (start + len) ≤ length words.now) × (8 * start + 8 ≤ length words.now) }
    ensures { result ≡ every (pair_at words.now start) len }
{
    let a = words[8 * start + 2];
    let b = words[8 * start + 3];
    (0..len).all(|k| {
        let row = 8 * (start + k);
        (words[row + 2] == a) & (words[row + 3] == b)
    })
}

fn run_begins(words: &[u32], i: usize) -> bool
    requires { 8 * i + 8 ≤ length words.now }
    ensures { result ≡ begins (owner_at words.now) i }
{
    if i == 0 {
        return true;
    }
    words[8 * i + 6] != words[8 * (i - 1) + 6]
}

// Of the run that begins at row i, where one does.
pub fn run_fits(words: &[u32], rows: usize, i: usize) -> bool
    requires { (8 * rows ≤ length words.now) × (i < rows) }
    ensures { result ≡ run_in words.now rows i }
{
    if !run_begins(words, i) {
        return true;
    }
    let len = run_length(words, rows, i);
    (len <= 6) & one_pair(words, i, len)
}
