// Many jobs at once: reads a stream of job files from standard input, each preceded by its length in bytes, 32 bits, little end first, and prints of each a line `job` with its number, from 0 on, and its sheet.

#![tactic(auto)]

use job_stream::print_jobs;

fn main(rt: HostRuntime) {
    print_jobs(&rt);
}
