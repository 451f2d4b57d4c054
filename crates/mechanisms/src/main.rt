// The groups program of document 02, g: reads a job file from standard input and prints how many mechanisms it holds, and of each the sheet of its rows alone.

#![tactic(auto)]

use groups_sheet::print_groups;

fn main(rt: HostRuntime) {
    print_groups(&rt);
}
