// The program: its words are those of the command line, its files and streams those of the system.
//
// All that it does is `run_program` of weave_program, whose contract has what a run promises.
#![tactic(auto)]

use std::process::ExitCode;
use system_calls::System;
use system_files::{ErrorOutput, Output, Unknown};
use weave_program::{run_program, status_of, words_of};

fn main(rt: HostRuntime) -> ExitCode {
    let (out, err) = (
        Output::<Unknown>::new(rt.stdout()),
        ErrorOutput::<Unknown>::new(rt.stderr()),
    );
    let (alloc, mut err_before) = (rt.alloc(), ErrorOutput::new(rt.stderr()));
    let mut answer = match words_of(&rt, alloc) {
        Ok(words) => run_program(System::new(rt), out, err, alloc, &words),
        Err(fault) => Err(fault),
    };
    ExitCode::from(status_of(&mut answer, &mut err_before))
}
