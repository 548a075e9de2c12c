// What the promises say of a case, where it can be computed.
use crate::cases::Case;
use crate::files::{are_same, put_files};
use crate::lines::{LINES, is_line_of};
use crate::words::add_line;
use crate::written::{Checked, are_cut_at, command_of, stopped_at, value_of};
use std::alloc::{AllocError, Global};
use test_stage::Stage;

/// The status of a case where nothing fails, that where what it names fails, and the first promise
/// that it breaks, if there is one.
#[derive(Drop)]
pub struct Judged {
    pub status: u8,
    pub failed: u8,
    pub broken: Option<&'static str>,
}

// The status of a run, and what is there after it.
#[derive(Drop)]
struct Left {
    status: u8,
    stage: Stage,
}

// A run that was refused.
fn refused_promise(before: &Stage, run: &Left) -> Option<&'static str> {
    if !is_line_of(LINES, run.status, run.stage.line()) {
        return Some("another line than one of the status");
    }
    if !run.stage.report().is_empty() {
        return Some("a report where a run is refused");
    }
    if !are_same(before, &run.stage) {
        return Some("a file changed where a run is refused");
    }
    if run.status == 5 && run.stage.read_faults() == 0 {
        return Some("a read fault of its own");
    }
    None
}

// A run in which nothing fails but reads of files that aren't there.
fn whole_promise(case: &Case, before: &Stage, run: &Left) -> Option<&'static str> {
    let command = command_of(&case.texts);
    if !command.statuses.contains(&run.status) {
        return Some("a status that can't be");
    }
    if run.status > 1 {
        return refused_promise(before, run);
    }
    if !run.stage.line().is_empty() {
        return Some("a line where all is done");
    }
    if run.stage.report().is_empty() {
        return Some("no report where all is done");
    }
    if run.status == 1 && !are_same(before, &run.stage) {
        return Some("a file written by a check");
    }
    let none = command.outputs.len();
    if !are_cut_at(&case.texts, none, before, &run.stage, &run.stage) {
        return Some("a file changed that the command doesn't write");
    }
    None
}

// What stands for a status where `check` can't be asked.
const UNASKED: u8 = 255;

// Runs `check` over the sample `s`, the out file `o`, and the files of these keys, and gives the
// status. With the name of one of those two it can't be asked.
fn check_pair(
    alloc: Global,
    texts: &[String],
    stage: &mut Stage,
    map: &str,
    record: &str,
) -> Result<u8, AllocError> {
    let (map, record) = (value_of(texts, map), value_of(texts, record));
    if (map == "s") | (map == "o") | (record == "s") | (record == "o") {
        return Ok(UNASKED);
    }
    let line = format!(in alloc; "check sample=s out=o map={map} record={record}")?;
    stage.run(line.as_str())
}

// Whether `check` says the same of both pairs of an upgrade, where it can be asked.
fn are_said_alike(alloc: Global, texts: &[String], stage: &mut Stage) -> Result<bool, AllocError> {
    stage.clear();
    let old = check_pair(alloc, texts, stage, "map", "record")?;
    let (reported, said) = (stage.report().len(), stage.line().len());
    let new = check_pair(alloc, texts, stage, "newmap", "newrecord")?;
    let is_asked = (old != UNASKED) & (new != UNASKED);
    let is_reported = stage.report().get(..reported) == stage.report().get(reported..);
    let is_said = stage.line().get(..said) == stage.line().get(said..);
    Ok(!is_asked | ((old == new) & is_reported & is_said))
}

// Whether `check` says of the files of a run that ended with status 0 what it is to say.
fn is_checked(alloc: Global, case: &Case, stage: &mut Stage) -> Result<bool, AllocError> {
    match command_of(&case.texts).checked {
        Checked::Stands => {
            let mut line = String::from_str(alloc, "check ")?;
            add_line(&mut line, &case.texts, false)?;
            stage.reports(line.as_str(), "stands\n")
        }
        Checked::Same => are_said_alike(alloc, &case.texts, stage),
        Checked::Nothing => Ok(true),
    }
}

// Whether two runs end alike but for their lines.
fn are_alike(a: &Left, b: &Left) -> bool {
    (a.status == b.status) & (a.stage.report() == b.stage.report()) & are_same(&a.stage, &b.stage)
}

// Whether a run ends so where a write of the report failed.
fn is_unreported(whole: &Left, run: &Left) -> bool {
    (run.status == 6)
        & (whole.status <= 1)
        & (run.stage.line() == b"weave: report: write fault\n".as_slice())
        & are_same(&run.stage, &whole.stage)
        & whole.stage.report().starts_with(run.stage.report())
}

// Whether a run ends so where a write of a file failed, of which the line says which it is.
fn is_unwritten(case: &Case, before: &Stage, whole: &Left, run: &Left) -> bool {
    let outputs = command_of(&case.texts).outputs;
    let Some(stopped) = stopped_at(outputs, run.stage.line()) else {
        return false;
    };
    (run.status == 6)
        & (whole.status == 0)
        & run.stage.report().is_empty()
        & are_cut_at(&case.texts, stopped, before, &whole.stage, &run.stage)
}

// A run in which what the case names fails, beside the same where nothing does.
fn failed_promise(case: &Case, before: &Stage, whole: &Left, run: &Left) -> Option<&'static str> {
    let (line, said) = (whole.stage.line(), run.stage.line());
    let (holds, broken) = if run.stage.line_faults() > 0 {
        (
            are_alike(whole, run) & line.starts_with(said),
            "another end where only the line can't be written",
        )
    } else if run.stage.read_faults() > 0 {
        if run.status == 5 {
            return refused_promise(before, run);
        }
        (false, "another status where a read failed")
    } else if run.stage.write_faults() > 0 {
        (
            is_unwritten(case, before, whole, run),
            "another end where a write failed",
        )
    } else if run.stage.report_faults() > 0 {
        (
            is_unreported(whole, run),
            "another end where only the report can't be written",
        )
    } else {
        (
            are_alike(whole, run) & (line == said),
            "two ends of the same words and files",
        )
    };
    if holds { None } else { Some(broken) }
}

// Which promise both runs of a case break, and how they ended.
fn judge_runs(
    alloc: Global,
    case: &Case,
    before: &Stage,
    whole: &mut Left,
    run: &Left,
) -> Result<Judged, AllocError> {
    let broken = whole_promise(case, before, whole).or(failed_promise(case, before, whole, run));
    let is_done = broken.is_none() & (whole.status == 0);
    let holds = !is_done || is_checked(alloc, case, &mut whole.stage)?;
    Ok(Judged {
        status: whole.status,
        failed: run.status,
        broken: if holds {
            broken
        } else {
            Some("files that don't stand")
        },
    })
}

// Runs a case over these stages, which are empty, and judges it.
fn judge_on(
    alloc: Global,
    case: &Case,
    before: &mut Stage,
    whole: &mut Left,
    run: &mut Left,
) -> Result<Judged, AllocError> {
    put_files(before, &case.files)?;
    whole.status = case.run_on(&mut whole.stage, false)?;
    run.status = case.run_on(&mut run.stage, true)?;
    judge_runs(alloc, case, before, whole, run)
}

/// Runs a case, with nothing failing and with what it names failing, and says how it ends and
/// which promise it breaks. (It owns the stages: each place where one ends is long to prove.)
pub fn judge_case(alloc: Global, case: &Case) -> Result<Judged, AllocError> {
    let mut before = Stage::new(alloc);
    let mut whole = Left {
        status: 0,
        stage: Stage::new(alloc),
    };
    let mut run = Left {
        status: 0,
        stage: Stage::new(alloc),
    };
    let judged = judge_on(alloc, case, &mut before, &mut whole, &mut run);
    drop(run);
    drop(whole);
    drop(before);
    judged
}
