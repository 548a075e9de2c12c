// Files in memory, over which lines of words are run.
use job_words::Words;
use shelf_core::{Call, MemShelf, MemSink, Shelf, Sink};
use std::alloc::{AllocError, Global};
use weave_engine::run;

// Adds the words of a line, which blanks part.
fn add_words(words: &mut Words, line: &str) -> Result<(), AllocError> {
    for word in line.split_ascii_whitespace() {
        words.push(word)?;
    }
    Ok(())
}

// Adds these words.
fn add_texts(words: &mut Words, texts: &[String]) -> Result<(), AllocError> {
    for text in texts {
        words.push(text.as_str())?;
    }
    Ok(())
}

// Runs words. What a run promises goes no further.
fn run_words<S: Shelf, O: Sink, E: Sink>(
    alloc: Global,
    words: &Words,
    shelf: &mut S,
    out: &mut O,
    err: &mut E,
) -> u8 {
    run(alloc, words, shelf, out, err)
}

/// Runs the words of a line, which blanks part.
pub fn ran<S: Shelf, O: Sink, E: Sink>(
    alloc: Global,
    line: &str,
    shelf: &mut S,
    out: &mut O,
    err: &mut E,
) -> Result<u8, AllocError> {
    let mut words = Words::new(alloc);
    add_words(&mut words, line)?;
    Ok(run_words(alloc, &words, shelf, out, err))
}

/// Whether a file is there and has these bytes.
pub fn is_file(found: Option<&[u8]>, wanted: &[u8]) -> bool {
    match found {
        Some(bytes) => bytes == wanted,
        None => false,
    }
}

/// A name and the bytes of its file.
pub type File<'a> = (&'a str, &'a [u8]);

/// What fails in a run: nothing, a call of a kind on the file of a name, or a write of the report. A write that fails
/// keeps so many bytes of its piece.
#[derive(Clone, Copy, Drop)]
pub enum Failing<'a> {
    Nothing,
    Get(&'a str),
    Begin(&'a str),
    Add(&'a str, usize),
    Report(usize),
}

/// Files in memory, and what the last run over them wrote to its report and as its line. No call of it has a
/// contract, so what a run promises is no part of the proofs of its callers. Where one is given to `drop`, its end is
/// proved once, by itself.
#[derive(Drop)]
pub struct Stage {
    alloc: Global,
    shelf: MemShelf,
    out: MemSink,
    err: MemSink,
}

impl Stage {
    /// No file, and nothing that fails.
    pub fn new(alloc: Global) -> Stage {
        Stage {
            alloc,
            shelf: MemShelf::new(alloc),
            out: MemSink::new(alloc),
            err: MemSink::new(alloc),
        }
    }

    /// Sets a file.
    pub fn put_file(&mut self, name: &str, bytes: &[u8]) -> Result<(), AllocError> {
        self.shelf.put_file(name, bytes)
    }

    /// Sets each of these files.
    pub fn put_files(&mut self, files: &[File]) -> Result<(), AllocError> {
        for (name, bytes) in files.iter() {
            self.put_file(*name, *bytes)?;
        }
        Ok(())
    }

    /// Lists what is to fail, after so many calls of its kind that go well.
    pub fn fail(&mut self, failing: Failing, after: u8) -> Result<(), AllocError> {
        let nth = u32::from(after) + 1;
        match failing {
            Failing::Nothing => Ok(()),
            Failing::Get(name) => self.shelf.fail_at(Call::Get, name, nth, 0),
            Failing::Begin(name) => self.shelf.fail_at(Call::Begin, name, nth, 0),
            Failing::Add(name, kept) => self.shelf.fail_at(Call::Add, name, nth, kept),
            Failing::Report(kept) => self.out.fail_at(nth, kept),
        }
    }

    /// Lists that a write of the line fails, after so many that go well, and keeps so many bytes of its piece.
    pub fn fail_line(&mut self, after: u8, kept: usize) -> Result<(), AllocError> {
        self.err.fail_at(u32::from(after) + 1, kept)
    }

    /// Runs the words of a line, which blanks part, and gives the status.
    pub fn run(&mut self, line: &str) -> Result<u8, AllocError> {
        ran(
            self.alloc,
            line,
            &mut self.shelf,
            &mut self.out,
            &mut self.err,
        )
    }

    /// Runs these words, and gives the status.
    pub fn run_texts(&mut self, texts: &[String]) -> Result<u8, AllocError> {
        let mut words = Words::new(self.alloc);
        add_texts(&mut words, texts)?;
        Ok(run_words(
            self.alloc,
            &words,
            &mut self.shelf,
            &mut self.out,
            &mut self.err,
        ))
    }

    /// Begins the report and the line again, empty. Neither fails from then on.
    pub fn clear(&mut self) {
        self.out = MemSink::new(self.alloc);
        self.err = MemSink::new(self.alloc);
    }

    /// The bytes of a file; none where there is no such file.
    pub fn file(&self, name: &str) -> Option<&[u8]> {
        self.shelf.file(name)
    }

    /// Whether a file is there and has these bytes.
    pub fn has_file(&self, name: &str, wanted: &[u8]) -> bool {
        is_file(self.file(name), wanted)
    }

    /// Whether each of these files is there with its bytes.
    pub fn has_files(&self, files: &[File]) -> bool {
        for (name, bytes) in files.iter() {
            if !self.has_file(*name, *bytes) {
                return false;
            }
        }
        true
    }

    /// What the runs reported.
    pub fn report(&self) -> &[u8] {
        self.out.bytes()
    }

    /// What the runs said of why they ended.
    pub fn line(&self) -> &[u8] {
        self.err.bytes()
    }

    /// Whether the report and the line are these.
    pub fn has_said(&self, report: &str, line: &str) -> bool {
        (self.report() == report.as_bytes()) & (self.line() == line.as_bytes())
    }

    /// Runs a line of words, and says whether it ends with this status, this report and this line.
    pub fn ends(
        &mut self,
        words: &str,
        status: u8,
        report: &str,
        line: &str,
    ) -> Result<bool, AllocError> {
        let ended = self.run(words)?;
        Ok((ended == status) & self.has_said(report, line))
    }

    /// Begins a report and a line, and says whether the words end with status 0, this report and no line.
    pub fn reports(&mut self, words: &str, report: &str) -> Result<bool, AllocError> {
        self.clear();
        self.ends(words, 0, report, "")
    }

    /// How many reads of files have failed.
    pub fn read_faults(&self) -> u64 {
        self.shelf.read_faults()
    }

    /// How many writes of files have failed.
    pub fn write_faults(&self) -> u64 {
        self.shelf.write_faults()
    }

    /// How many writes of the report have failed.
    pub fn report_faults(&self) -> u64 {
        self.out.faults()
    }

    /// How many writes of the line have failed.
    pub fn line_faults(&self) -> u64 {
        self.err.faults()
    }
}
