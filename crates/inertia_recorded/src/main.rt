// Replays a list of matrices, and of factors made by any hand, with what the Rust's factor_spd, Cholesky3::solve and inverse_spd give
// (oracle/src/inertia.rs has its layout and makes it) through `inertia`, and prints how many were accepted or refused, and how many differ.

#![tactic(auto)]

mod matrix; // matrix.rt: one record read out of its bytes, beside what the port gives
mod tally; // tally.rt: the counts

ghost use Rattle.std.specs.Prelude.{◌≡◌, length};

use matrix::seen;
use program_io::read_full;
use tally::Tally;

fn line(rt: &HostRuntime, n: u32, text: &[u8]) {
    let _ = print!(rt; "{n}");
    let _ = rt.write_all(text);
}

// A list has far fewer records than are read at most. One that ends too soon differs.
fn tallied(rt: &HostRuntime, space: &mut [u8]) -> Tally
    requires { length space.old ≡ 256 }
{
    let mut tally = Tally::none();
    for _ in 0..10000000 {
        let n = read_full(rt, space);
        if n == 0 {
            return tally;
        }
        if n < 256 {
            return tally.cut_short();
        }
        tally = tally.with(seen(space));
    }
    tally
}

fn main(rt: HostRuntime) {
    let mut space: [u8; 256] = [0; 256];
    let tally = tallied(&rt, &mut space);
    line(&rt, tally.matrices, b" matrices\n");
    line(&rt, tally.accepted, b" inverted\n");
    line(&rt, tally.refused_21, b" refused by 21\n");
    line(&rt, tally.refused_22, b" refused by 22\n");
    line(&rt, tally.refused_23, b" refused by 23\n");
    line(&rt, tally.refused_12, b" refused by 12\n");
    line(&rt, tally.by_hand, b" factors by hand\n");
    line(
        &rt,
        tally.signs,
        b" with a zero of the other sign in the triangle or the solution\n",
    );
    line(&rt, tally.differ, b" differ\n");
}
