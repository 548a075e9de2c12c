// The program over its own stored run, which ends with status 5. Its report and its lines both go to the
// standard output, since that alone is compared.
#![tactic(auto)]

use std::process::ExitCode;
use system_calls::System;
use system_files::{Output, Unknown};
use weave_program::{run_program, status_of, words_of};

fn main(rt: HostRuntime) -> ExitCode {
    let (out, err) = (
        Output::<Unknown>::new(rt.stdout()),
        Output::<Unknown>::new(rt.stdout()),
    );
    let (alloc, mut err_before) = (rt.alloc(), Output::new(rt.stdout()));
    let mut answer = match words_of(&rt, alloc) {
        Ok(words) => run_program(System::new(rt), out, err, alloc, &words),
        Err(fault) => Err(fault),
    };
    ExitCode::from(status_of(&mut answer, &mut err_before))
}
