// The margins program of document 02, m: reads a job file from standard input and prints the first lines of its sheet and, of a closed one, how near each row was to open.

#![tactic(auto)]

use job_sheet::print_margins;

fn main(rt: HostRuntime) {
    print_margins(&rt);
}
