// The pattern of the pairs, starts and columns in one slice: row by row, columns ascending, by testing for a shared body every earlier row that can have one.
ghost use Rattle.std.specs.Prelude.{◌≡◌, ◌+◌, ◌*◌, ◌<◌, ◌≤◌, length};
ghost use Rattle.loops.specs.Cleared.{Free};
ghost use Rattle.refusals.specs.Told.{told};
ghost use Rattle.pairs.specs.Pattern.{starts_in, columns_in};
ghost use Rattle.pairs.specs.Gather.{shares_in, any_share, eight_apart, share_in, tried_of, tried_columns, FirstNoted, Firsts, Begin, RowDone, Gathering};

use loops::wide;
use refusals::Refusal;
use sparse::put;

// Does row `j` share a body with a row that has the bodies `a` and `b`?
fn shares(links: &[u32], a: u32, b: u32, j: usize) -> bool
    requires { 2 * j + 2 ≤ length links.now }
    ensures { result ≡ shares_in links.now a b j }
{
    let at = 2 * j;
    let c = links[at];
    let d = links[at + 1];
    ((a == c) | (a == d)) | ((b == c) | (b == d))
}

// Does one of the four rows from `j` on share a body with such a row? In a sparse table few do, and four tests without a branch cost little more than one with it.
fn four_share(links: &[u32], a: u32, b: u32, j: usize) -> bool
    requires { 2 * j + 8 ≤ length links.now }
    ensures { result ≡ any_share links.now a b j 4 }
{
    shares(links, a, b, j)
        | shares(links, a, b, j + 1)
        | shares(links, a, b, j + 2)
        | shares(links, a, b, j + 3)
}

// Can the eight columns from `j` on of row `i` be passed over? Asked at every eighth column alone, so that a full table is tested twice and not nine times.
fn eight_apart(links: &[u32], i: u32, a: u32, b: u32, j: u32) -> bool
    requires { (2 * i + 2 ≤ length links.now) × (j ≤ i) }
    ensures { result ≡ eight_apart links.now i a b j }
{
    if (j % 8 != 0) | (i - j < 8) {
        return false;
    }
    let at = wide(j);
    !(four_share(links, a, b, at) | four_share(links, a, b, at + 4))
}

// Column `j`, if it makes a pair, at place `p`.
#[tactic(auto, unfolding(crate::specs::Gather::tried_of, crate::specs::Gather::tried_columns, loops::specs::Run::check))]
fn try_column(
    links: &[u32],
    columns: &mut [u32],
    room: u32,
    a: u32,
    b: u32,
    j: u32,
    p: u32,
) -> Result<u32, Refusal>
    requires { (2 * j + 2 ≤ length links.now) × (room ≡ length columns.old) }
    ensures value { told result ≡ tried_of (shares_in links.now a b j) room p }
    ensures columns_after { columns.new ≡ tried_columns (shares_in links.now a b j) room columns.old p j }
{
    if !shares(links, a, b, wide(j)) {
        return Ok(p);
    }
    if room <= p {
        return Err(Refusal::Pairs);
    }
    put(columns, p, j);
    Ok(p + 1)
}

// The pairs of row `i`, whose columns begin at `from`, from place `first` on.
fn gather_row(
    links: &[u32],
    columns: &mut [u32],
    room: u32,
    i: u32,
    from: u32,
    first: u32,
) -> Result<u32, Refusal>
    requires i_in_bounds { (2 * i + 2 ≤ length links.now) × (room ≡ length columns.old) × (first ≤ room) }
    requires begin { Begin (share_in links.now) i from }
    ensures { RowDone (told result) (share_in links.now) columns.old columns.new i first room }
{
    let at = 2 * wide(i);
    let a = links[at];
    let b = links[at + 1];
    let mut p = first;
    let mut j = from;
    while j < i {
        if eight_apart(links, i, a, b, j) {
            j += 8;
            continue;
        }
        p = try_column(links, columns, room, a, b, j, p)?;
        j += 1;
    }
    Ok(p)
}

// The first row that has `body`, which row `i` has: where `firsts` notes none before, row `i` is noted. Row 0, which is never too late, for a body that has no place in `firsts`.
fn first_row(firsts: &mut [u32], body: u32, i: u32) -> u32
    ensures { FirstNoted firsts.old firsts.new body i result }
{
    let at = wide(body);
    if firsts.len() <= at {
        return 0;
    }
    let noted = firsts[at];
    if noted <= i {
        return noted;
    }
    firsts[at] = i;
    i
}

// The column at which row `i` begins: the first row that has one of its bodies, since no row before it can share one.
fn first_column(links: &[u32], firsts: &mut [u32], i: u32) -> u32
    requires i_in_bounds { 2 * i + 2 ≤ length links.now }
    requires firsts { Firsts links.now firsts.old i }
    ensures begin { Begin (share_in links.now) i result }
    ensures firsts_2 { Firsts links.now firsts.new (i + 1) }
{
    let at = 2 * wide(i);
    let a = first_row(firsts, links[at], i);
    let b = first_row(firsts, links[at + 1], i);
    if a < b {
        return a;
    }
    b
}

// The same as `gather`, with a place in `firsts` for each body whose first row is noted.
fn gather_rows(
    links: &[u32],
    pattern: &mut [u32],
    room: u32,
    firsts: &mut [u32],
    n: u32,
) -> Result<u32, Refusal>
    requires { (2 * n ≤ length links.now) × (length pattern.old ≡ n + 1 + room) }
    ensures { Gathering (told result) (share_in links.now) (starts_in n pattern.new) (columns_in n pattern.new) n room }
{
    pattern[0] = 0;
    let ends = wide(n) + 1;
    let mut p = 0;
    for i in 0..n {
        let from = first_column(links, firsts, i);
        p = gather_row(links, &mut pattern[ends..], room, i, from, p)?;
        put(pattern, i + 1, p);
    }
    Ok(p)
}

// With fewer rows, it costs more to note the first row of each body than it saves.
const FEW_ROWS: u32 = 8;

// Document 01 has at most 256 bodies.
const BODIES: usize = 256;

// Above every row: no row that has the body is noted.
const NO_ROW: u32 = 4294967295;

// The pairs of `n` rows. The answer is their number, or refusal 10 where there are more than `room`. Words of the pattern of which `Gathering` tells nothing are free.
pub fn gather(links: &[u32], pattern: &mut [u32], room: u32, n: u32) -> Result<u32, Refusal>
    requires { (2 * n ≤ length links.now) × (length pattern.old ≡ n + 1 + room) }
    ensures gathering { Gathering (told result) (share_in links.now) (starts_in n pattern.new) (columns_in n pattern.new) n room }
    ensures free { Free pattern.old pattern.new }
{
    if n < FEW_ROWS {
        let mut none: [u32; 0] = [0; 0];
        return gather_rows(links, pattern, room, &mut none, n);
    }
    let mut firsts: [u32; BODIES] = [NO_ROW; BODIES];
    gather_rows(links, pattern, room, &mut firsts, n)
}
