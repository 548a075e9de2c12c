// Files by their names.
use std::alloc::{AllocError, Global};
use test_stage::Stage;

/// The names of all files of a case.
pub const NAMES: &[&str] = &["s", "t", "u", "o", "m", "r", "n", "q"];

/// One file.
#[derive(Drop)]
pub struct File {
    pub name: &'static str,
    pub bytes: Vec<u8>,
}

/// Sets the files on a stage.
pub fn put_files(stage: &mut Stage, files: &[File]) -> Result<(), AllocError> {
    for file in files.iter() {
        stage.put_file(file.name, &file.bytes)?;
    }
    Ok(())
}

/// Adds the files of a stage.
pub fn add_files(alloc: Global, files: &mut Vec<File>, stage: &Stage) -> Result<(), AllocError> {
    for name in NAMES {
        if let Some(bytes) = stage.file(*name) {
            let bytes = Vec::from_slice(alloc, bytes)?;
            files.push(File { name: *name, bytes })?;
        }
    }
    Ok(())
}

/// Whether both stages hold the same under each name.
pub fn are_same(a: &Stage, b: &Stage) -> bool {
    for name in NAMES {
        if a.file(*name) != b.file(*name) {
            return false;
        }
    }
    true
}
