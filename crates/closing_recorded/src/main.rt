// Replays a list of closing checks that were worked in exact rational arithmetic (oracle/closing/record.py has its layout and makes it)
// through `closing_check`, and prints how many were closed, open or refused, and how many differ from the list.

#![tactic(auto)]

mod input; // input.rt: the cases of standard input
mod replay; // replay.rt: one case read out of its bytes
mod tally; // tally.rt: the counts

fn line(rt: &HostRuntime, n: u32, text: &[u8]) {
    let _ = print!(rt; "{n}");
    let _ = rt.write_all(text);
}

fn main(rt: HostRuntime) {
    let mut space: [u8; 174536] = [0; 174536];
    let tally = input::tallied(&rt, &mut space);
    line(&rt, tally.closed, b" closed\n");
    line(&rt, tally.open, b" open\n");
    line(&rt, tally.refused_3, b" refused by 3\n");
    line(&rt, tally.refused_4, b" refused by 4\n");
    line(&rt, tally.refused_27, b" refused by 27\n");
    line(&rt, tally.refused_6, b" refused by 6\n");
    line(&rt, tally.refused_7, b" refused by 7\n");
    line(&rt, tally.refused_18, b" refused by 18\n");
    line(&rt, tally.other, b" other\n");
    line(&rt, tally.differ, b" differ\n");
}
