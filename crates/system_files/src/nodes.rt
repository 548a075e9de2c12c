// Which files a run has read or begun, by what tells one file from another whatever its name is.
ghost use Rattle.std.specs.Prelude.{◌≡◌, ◌↔◌, [], IfOk, OnOk, OnErr, IsSome};
ghost use Rattle.std.specs.Fs.{file_type, IsFile};
ghost use Rattle.system_files.specs.Nodes.{Adds, HasBoth, IsNoted, MayAdd};

use std::alloc::{AllocError, Global};
use std::fs::{File, Metadata};
use std::io;
use std::marker::Model;
use std::os::unix::fs::MetadataExt;
use system_calls::System;

// How many files a run reads and begins, at most, with some to spare.
const MOST_FILES: usize = 32;

// The standard output and the standard error as files. They are there where these have no name, too.
const OUTPUT: &str = "/proc/self/fd/1";

const ERROR_OUTPUT: &str = "/proc/self/fd/2";

// A file: its device, and its number there.
#[derive(Clone, Copy, PartialEq, Eq)]
struct Node {
    device: u64,
    number: u64,
}

// The file that this is said of, if it is a regular one.
fn node_of(metadata: &Metadata) -> Option<Node>
    ensures { IsSome result ↔ IsFile (file_type metadata.now) }
{
    if !metadata.is_file() {
        return None;
    }
    Some(Node {
        device: metadata.dev(),
        number: metadata.ino(),
    })
}

/// The regular files that were read or begun, and the standard output and error where they are such.
#[derive(Drop)]
pub struct Known {
    nodes: Vec<Node>,
    // Each file, as far as the system lets it be open twice. The number of one that is open isn't
    // given to another, whoever removes its names.
    held: Vec<File>,
    // Whether a standard stream may be a file that isn't among these.
    unsure: bool,
}

impl Model for Known {
    ghost use Rattle.std.specs.Prelude.{List};
    ghost use Rattle.system_files.specs.declared.nodes.Node.{Node};

    ghost Value = { List Node };

    ghost view = { λ a. a.nodes.items };
}

impl Known {
    // No file. It takes all the memory that the files of a run need.
    fn none(alloc: Global) -> Result<Known, AllocError>
        ensures { IfOk result (λ known. known ≡ []) }
    {
        let held = Vec::with_capacity(alloc, MOST_FILES)?;
        let nodes = Vec::with_capacity(alloc, MOST_FILES)?;
        Ok(Known {
            nodes,
            held,
            unsure: false,
        })
    }

    // Adds a file, if it is a regular one that isn't known. It says whether the file was none of these.
    fn note(&mut self, node: Option<Node>) -> Result<bool, AllocError>
        ensures ok { IfOk result (λ fresh. IsNoted node fresh self.old self.new) }
        ensures err { OnErr result (self.new ≡ self.old) }
    {
        let Some(node) = node else {
            return Ok(true);
        };
        if self.nodes.as_slice().contains(&node) {
            return Ok(false);
        }
        self.nodes.push(node)?;
        Ok(true)
    }

    // Adds what the metadata of a standard stream is of, if it is a regular file. Where the system has no
    // metadata of it, the stream may be any file.
    fn add_stream(&mut self, metadata: io::Result<Metadata>) -> Result<(), AllocError>
        ensures { OnOk result (MayAdd metadata self.old self.new) }
    {
        let Ok(metadata) = metadata else {
            self.unsure = true;
            return Ok(());
        };
        self.note(node_of(&metadata))?;
        Ok(())
    }

    // The files that this is said of, where they are regular ones.
    fn of_streams(
        alloc: Global,
        output: io::Result<Metadata>,
        error_output: io::Result<Metadata>,
    ) -> Result<Known, AllocError>
        ensures { IfOk result (λ known. HasBoth output error_output known) }
    {
        let mut known = Known::none(alloc)?;
        known.add_stream(output)?;
        known.add_stream(error_output)?;
        Ok(known)
    }

    /// The standard output and the standard error, where they are regular files. It takes all the memory
    /// that the files of a run need; the one error is out of memory.
    pub fn new(system: &System, alloc: Global) -> Result<Known, AllocError> {
        let output = system.metadata(OUTPUT);
        let error_output = system.metadata(ERROR_OUTPUT);
        Known::of_streams(alloc, output, error_output)
    }

    /// Whether the standard output or the standard error may be a file that isn't among these: what it is
    /// couldn't be asked, as without /proc.
    pub fn is_unsure(&self) -> bool {
        self.unsure
    }

    /// Adds an open file with its metadata, if it is a regular one that isn't known. It says whether
    /// the file was none of these; the one error is out of memory.
    pub fn add(&mut self, file: &File, metadata: &Metadata) -> Result<bool, AllocError>
        ensures ok { IfOk result (λ fresh. Adds metadata.now fresh self.old self.new) }
        ensures err { OnErr result (self.new ≡ self.old) }
    {
        let node = node_of(metadata);
        let fresh = self.note(node)?;
        if fresh && node.is_some() {
            if let Ok(held) = file.try_clone() {
                // There is room for all files of a run. One that isn't held can only lose its number.
                let _ = self.held.push(held);
            }
        }
        Ok(fresh)
    }
}
