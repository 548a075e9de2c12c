// Runs drawn from a seed, each of which is held against what is promised of every run.
//
// The first word is the seed, the second how many cases are run, the third the number of the first
// of them; with no word it is a few cases of seed 1. A case is a list of words, files and a call
// that fails; the files are those of runs of all commands, some of their bytes changed. It prints
// how many cases ended with each status, and each case that breaks a promise. The status is 1
// where there is one.
//
// With the word `memory` and a number it does one run over stores that take no memory, and says
// whether it ended well. The status is 7 where it ended out of memory and every file is as
// before. So it can be run with each allocation failing in turn.
//
// `dice` draws, `pool` makes valid files, `changes` changes them, `words` has the words, `cases` a
// case, which it runs over a stage, and `judge` holds it against the promises, with `lines` and
// `written`. `memory` has the runs over stores that take none.
#![tactic(auto)]

mod cases;
mod changes;
mod dice;
mod files;
mod judge;
mod lines;
mod memory;
mod pool;
mod words;
mod written;

use cases::Case;
use dice::Dice;
use judge::judge_case;
use memory::{RUNS, Surely, end_of};
use pool::{MADE, World, add_worlds};
use std::process::ExitCode;
use std::{env, io};
use words::add_line;

// How many cases are run where no word says it.
const FEW_CASES: u64 = 100;

// The status for out of memory.
const NO_MEMORY: u8 = 7;

// What came of the cases: how many ended with each status where nothing fails, and where what they
// name fails; and how many broke a promise.
#[derive(Drop)]
struct Counts {
    ended: [(u64, u64); 9],
    broken: u64,
}

impl Counts {
    // One more has ended so where nothing fails, and so where what it names fails.
    fn add(&mut self, status: u8, failed: u8) {
        if let Some((count, _)) = self.ended.get_mut(usize::from(status)) {
            *count = count.saturating_add(1);
        }
        if let Some((_, count)) = self.ended.get_mut(usize::from(failed)) {
            *count = count.saturating_add(1);
        }
    }
}

// Says which promise a case breaks, and its words.
fn say_broken(
    rt: &HostRuntime,
    case: &Case,
    number: u64,
    status: u8,
    broken: &str,
) -> io::Result<()> {
    let mut line = String::new(rt.alloc());
    add_line(&mut line, &case.texts, true)?;
    println!(rt; "case {number}: {broken}; status {status}: {line}")
}

// Runs the case of a number, and judges it.
fn run_case(
    rt: &HostRuntime,
    case: &mut Case,
    worlds: &[World],
    seed: u64,
    number: u64,
    counts: &mut Counts,
) -> io::Result<()> {
    case.draw(rt.alloc(), worlds, &mut Dice::of(seed, number))?;
    let found = judge_case(rt.alloc(), case)?;
    counts.add(found.status, found.failed);
    match found.broken {
        Some(broken) => {
            counts.broken = counts.broken.saturating_add(1);
            say_broken(rt, case, number, found.status, broken)
        }
        None => Ok(()),
    }
}

fn print_counts(rt: &HostRuntime, counts: &Counts) -> io::Result<()> {
    for (status, (ended, failed)) in counts.ended.iter().enumerate() {
        println!(rt; "status {status}: {ended}, with a call that fails {failed}")?;
    }
    let broken = counts.broken;
    println!(rt; "broken: {broken}")
}

// Draws cases from a seed, and runs them.
fn run_cases(
    rt: &HostRuntime,
    worlds: &[World],
    case: &mut Case,
    seed: u64,
    first: u64,
    end: u64,
) -> io::Result<ExitCode> {
    let mut counts = Counts {
        ended: [(0, 0); 9],
        broken: 0,
    };
    for number in first..end {
        run_case(rt, case, worlds, seed, number, &mut counts)?;
    }
    print_counts(rt, &counts)?;
    Ok(ExitCode::from(u8::from(counts.broken > 0)))
}

// The same, once the files to begin with are made.
fn make_and_run(
    rt: &HostRuntime,
    worlds: &mut Vec<World>,
    case: &mut Case,
    seed: u64,
    first: u64,
    end: u64,
) -> io::Result<ExitCode> {
    if add_worlds(rt.alloc(), worlds, MADE)? {
        return run_cases(rt, worlds, case, seed, first, end);
    }
    println!(rt; "the files to begin with don't stand")?;
    Ok(ExitCode::from(1))
}

// Does one run over stores that take no memory.
fn run_surely(rt: &HostRuntime, number: usize) -> io::Result<ExitCode> {
    let ended = match end_of(rt.alloc(), RUNS, number) {
        Ok(Surely::Well) => "ended well",
        Ok(Surely::Wrong) => "is wrong",
        Ok(Surely::NoMemory) | Err(_) => return Ok(ExitCode::from(NO_MEMORY)),
    };
    println!(rt; "run {number} {ended}")?;
    Ok(ExitCode::from(0))
}

fn number_of(word: Option<String>) -> Option<u64> {
    match word {
        Some(word) => word.as_str().parse::<u64>().ok(),
        None => None,
    }
}

// Whether the first word is `memory`, and the numbers that the first three say.
fn asked(rt: &HostRuntime) -> io::Result<(bool, [Option<u64>; 3])> {
    let mut words = env::args(rt)?.skip(1);
    let first = words.next();
    let is_memory = match &first {
        Some(word) => word.as_str() == "memory",
        None => false,
    };
    let numbers = [
        number_of(first),
        number_of(words.next()),
        number_of(words.next()),
    ];
    Ok((is_memory, numbers))
}

fn main(rt: HostRuntime) -> io::Result<ExitCode> {
    let (is_memory, [first, second, third]) = asked(&rt)?;
    if is_memory {
        return run_surely(&rt, usize::try_from(second.unwrap_or(0)).unwrap_or(0));
    }
    let from = third.unwrap_or(0);
    let end = from.saturating_add(second.unwrap_or(FEW_CASES));
    let mut worlds = Vec::new(rt.alloc());
    let mut case = Case::new(rt.alloc());
    let seed = first.unwrap_or(1);
    let ended = make_and_run(&rt, &mut worlds, &mut case, seed, from, end);
    drop(case);
    drop(worlds);
    ended
}
