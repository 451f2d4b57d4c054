// The gaps program: reads a job file from standard input and prints the first lines of its sheet and, where there is a verdict, each row's measured number beside its tolerance; of a refused job the first row or body at fault.

#![tactic(auto)]

use job_sheet::print_gaps;

fn main(rt: HostRuntime) {
    print_gaps(&rt);
}
