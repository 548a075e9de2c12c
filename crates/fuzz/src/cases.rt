// One case: words, files and what fails, drawn from a seed.
use crate::changes::change_files;
use crate::dice::Dice;
use crate::files::{File, NAMES, add_files, put_files};
use crate::pool::World;
use crate::words::put_words;
use std::alloc::{AllocError, Global};
use test_stage::{Failing, Stage};

/// What fails in a run, after so many of its kind that go well: a call on a file or a write of the
/// report; or a write of the line, which keeps so many bytes of its piece.
#[derive(Drop)]
pub enum Fault {
    Call(Failing<'static>, u8),
    Line(u8, usize),
}

/// What is run.
#[derive(Drop)]
pub struct Case {
    pub texts: Vec<String>,
    pub files: Vec<File>,
    pub fault: Fault,
}

fn drawn_fault(dice: &mut Dice) -> Fault {
    let name = dice.text(NAMES);
    let after = u8::try_from(dice.below(6)).unwrap_or(0);
    let kept = dice.below(9);
    match dice.below(10) {
        0 | 1 | 2 => Fault::Call(Failing::Get(name), after),
        3 => Fault::Call(Failing::Begin(name), 0),
        4 | 5 | 6 => Fault::Call(Failing::Add(name, kept), after),
        7 | 8 => Fault::Call(Failing::Report(kept), after),
        _ => Fault::Line(after, kept),
    }
}

impl Case {
    /// No word, no file, and nothing that fails.
    pub fn new(alloc: Global) -> Case {
        Case {
            texts: Vec::new(alloc),
            files: Vec::new(alloc),
            fault: Fault::Call(Failing::Nothing, 0),
        }
    }

    /// Begins again, with the words and the files of some run, as these draws change them.
    pub fn draw(
        &mut self,
        alloc: Global,
        worlds: &[World],
        dice: &mut Dice,
    ) -> Result<(), AllocError> {
        self.texts.clear();
        self.files.clear();
        let Some(world) = worlds.get(dice.below(worlds.len())) else {
            return Ok(());
        };
        put_words(alloc, &mut self.texts, world, dice)?;
        add_files(alloc, &mut self.files, &world.stage)?;
        change_files(&mut self.files, worlds, dice)?;
        self.fault = drawn_fault(dice);
        Ok(())
    }

    /// Runs the words over the files on an empty stage, where nothing fails or what is to fail, and
    /// gives the status.
    pub fn run_on(&self, stage: &mut Stage, is_failing: bool) -> Result<u8, AllocError> {
        put_files(stage, &self.files)?;
        if is_failing {
            match self.fault {
                Fault::Call(failing, after) => stage.fail(failing, after)?,
                Fault::Line(after, kept) => stage.fail_line(after, kept)?,
            }
        }
        stage.run_texts(&self.texts)
    }
}
