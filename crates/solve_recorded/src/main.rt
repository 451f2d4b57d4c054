// Replays the recorded solves, two lists of positions and two of velocities on one standard input (oracle/README.md has their form, `oracle/run record` makes them), through `solve_table`,
// and prints how many jobs there are, how they end, and how many differ from what is recorded.

#![tactic(auto)]

ghost use Rattle.std.specs.Prelude.{◌≡◌, ◌<◌, length};

mod lists; // lists.rt: the lists, job by job
mod tally; // tally.rt: the counts

use lists::all_counted;
use program_io::read_full;

fn part(rt: &HostRuntime, n: u32, text: &[u8]) {
    let _ = print!(rt; "{n}");
    let _ = rt.write_all(text);
}

fn lines(rt: &HostRuntime, list: &[u8])
    requires { length list.now < 1000000000 }
{
    let count = all_counted(list);
    part(rt, count.jobs, b" jobs\n");
    part(rt, count.met, b" accepted with flag 1\n");
    part(rt, count.open, b" accepted with flag 0\n");
    part(rt, count.refused, b" refused\n");
    part(rt, count.differ, b" differ\n");
}

// Room for all lists; its length alone matters.
fn room() -> [u8; 3600000]
    ensures { 3600000 ≡ length result }
{
    [0; 3600000]
}

fn main(rt: HostRuntime) {
    let mut space = room();
    let n = read_full(&rt, &mut space);
    lines(&rt, &space[..n]);
}
