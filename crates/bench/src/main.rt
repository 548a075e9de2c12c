// Runs one case of a few that tell how fast the crates are, so that a run of it can be timed.
//
// Its first word is the name of the case, and its second how often the case is run, 1 where there is none. It
// prints a number of what comes out, which is the same in each run. With no word it does a little of everything,
// which the gate compares. checks/bench.sh times the cases.
//
// `samples` makes the samples, `growths` has the cases of growing, `quilts` those of quilting and of transfer, `merges`
// those of merging, `loops` those of loops, `boundaries` those of strips, `networks` those of maximum flow, and
// `record_files` and `clips` those of files.
#![tactic(auto)]

mod boundaries;
mod cases;
mod clips;
mod growths;
mod loops;
mod merges;
mod networks;
mod quilts;
mod record_files;
mod samples;

use cases::{Case, case_of, run_case};
use std::{env, io};

// The case that is run, and how often: a little of everything where there is no word, and once.
fn asked(rt: &HostRuntime) -> io::Result<(&'static Case, u32)> {
    let mut words = env::args(rt)?.skip(1);
    let case = match words.next() {
        Some(word) => case_of(word.as_str()),
        None => &Case::Quick,
    };
    let times = match words.next() {
        Some(word) => word.as_str().parse::<u32>().unwrap_or(1),
        None => 1,
    };
    Ok((case, times))
}

fn main(rt: HostRuntime) -> io::Result<()> {
    let (case, times) = asked(&rt)?;
    let number = run_case(rt.alloc(), case, times)?;
    println!(rt; "{number}")
}
