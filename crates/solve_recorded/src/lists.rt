// The recorded lists, job by job: two of positions, then two of velocities (document 02, a).
ghost use Rattle.std.specs.Prelude.{◌≡◌, ◌<◌, length};
ghost use Rattle.solve_recorded.specs.Tally.{begins_at, next_of, list_of, both_of, all_of};

use crate::tally::Count;
use kapitsa_joint::Kind;
use packed_list::{half, word};
use solve_replay::job_seen;

// "KAPITSA1", which a list begins with.
const NAME: u64 = 0x3141_5354_4950_414b;

fn begins(list: &[u8], at: usize) -> bool
    requires { length list.now < 1000000000 }
    ensures { result ≡ begins_at list.now at }
{
    if list.len() <= at {
        return false;
    }
    word(list, at) == NAME
}

// One job more.
fn next_counted(kind: Kind, list: &[u8], count: Count) -> Count
    requires { length list.now < 1000000000 }
    ensures { result ≡ next_of kind list.now count }
{
    let at = count.end;
    if list.len() <= at {
        return count.missing();
    }
    count.with(job_seen(kind, list, at))
}

// The jobs of the list that begins at the count's end.
fn list_counted(kind: Kind, list: &[u8], before: Count) -> Count
    requires { length list.now < 1000000000 }
    ensures { result ≡ list_of kind list.now before }
{
    let at = before.end;
    if !begins(list, at) {
        return before.missing();
    }
    let jobs = half(list, at + 8);
    let mut count = before.from(at + 16);
    let mut i = 0;
    while i < jobs {
        count = next_counted(kind, list, count);
        i += 1;
    }
    count
}

// Both lists of a kind: the reference's answers, then the definition's.
fn both_counted(kind: Kind, list: &[u8], before: Count) -> Count
    requires { length list.now < 1000000000 }
    ensures { result ≡ both_of kind list.now before }
{
    let first = list_counted(kind, list, before);
    list_counted(kind, list, first)
}

pub fn all_counted(list: &[u8]) -> Count
    requires { length list.now < 1000000000 }
    ensures { result ≡ all_of list.now }
{
    let positions = both_counted(Kind::Position, list, Count::none());
    let velocities = both_counted(Kind::Velocity, list, positions);
    velocities.closed(list.len())
}
