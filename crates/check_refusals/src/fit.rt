// Refusal 3: the counts, and the lengths of what is lent.
ghost use Rattle.std.specs.Prelude.{◌≡◌, ◌<◌};
ghost use Rattle.check_refusals.specs.Refusals.{beside_of, table_fits, given_fits, work_fits, passes3};

use joint_refusals::table_counts_fit;
use kapitsa_joint::Kind;
use loops::wide;
use rules::rule_lengths_fit;

// What is given.
#[derive(Clone, Copy)]
pub struct TableLengths {
    pub numbers: usize,
    pub words: usize,
    pub masses: usize,
    pub beside: usize, // centres or, for velocities, the residual
    pub multipliers: usize,
    pub rule_words: usize,
    pub rule_tolerances: usize,
    pub rule_numbers: usize,
}

// The work memory.
#[derive(Clone, Copy)]
pub struct WorkLengths {
    pub impulses: usize,
    pub size_impulses: usize,
    pub values: usize,
    pub sizes: usize,
}

fn beside(kind: Kind, n: usize, b: usize) -> usize
    requires { b < 4294967296 }
    ensures { result ≡ beside_of kind n b }
{
    match kind {
        Kind::Position => 3 * b,
        Kind::Velocity => n,
    }
}

#[tactic(auto, unfolding(crate::specs::Refusals::table_fits))]
fn table_fits(kind: Kind, n: usize, b: usize, lengths: TableLengths) -> bool
    requires { (n < 4294967296) × (b < 4294967296) }
    ensures { result ≡ table_fits kind n b lengths }
{
    (lengths.numbers == 27 * n)
        & (lengths.words == 8 * n)
        & (lengths.masses == 10 * b)
        & (lengths.beside == beside(kind, n, b))
        & (lengths.multipliers == n)
        & rule_lengths_fit(lengths.rule_words, lengths.rule_tolerances)
        & (lengths.rule_numbers == n)
}

// The counts, and the lengths of what is given.
#[tactic(auto, unfolding(crate::specs::Refusals::given_fits))]
pub fn given_fits(kind: Kind, rows: u32, bodies: u32, table: TableLengths) -> bool
    ensures { result ≡ given_fits kind rows bodies table }
{
    table_counts_fit(rows, bodies) & table_fits(kind, wide(rows), wide(bodies), table)
}

#[tactic(auto, unfolding(crate::specs::Refusals::work_fits))]
fn work_fits(n: usize, b: usize, lengths: WorkLengths) -> bool
    requires { (n < 4294967296) × (b < 4294967296) }
    ensures { result ≡ work_fits n b lengths }
{
    (lengths.impulses == 6 * b)
        & (lengths.size_impulses == 6 * b)
        & (lengths.values == n)
        & (lengths.sizes == n)
}

// The counts and every length.
#[tactic(auto, unfolding(crate::specs::Refusals::passes3))]
pub fn fits(kind: Kind, rows: u32, bodies: u32, table: TableLengths, work: WorkLengths) -> bool
    ensures { result ≡ passes3 kind rows bodies table work }
{
    given_fits(kind, rows, bodies, table) & work_fits(wide(rows), wide(bodies), work)
}
