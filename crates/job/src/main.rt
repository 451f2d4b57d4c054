// The job program of document 01: reads a job file from standard input and prints its sheet.

#![tactic(auto)]

use job_sheet::print_job;

fn main(rt: HostRuntime) {
    print_job(&rt);
}
