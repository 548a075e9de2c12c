// The words of the command line.
use job_words::{WordFault, Words};
use std::alloc::Global;
use std::env::{self, Env};
use std::io::ErrorKind;
use std::str::from_utf8;
use synth_report::Fault;

// No key has a value of more bytes, and the system takes no longer path.
const WORD_BYTES: usize = 4096;

// The first word that isn't text, counted from 1, or is longer than any key takes.
fn first_bad_word(rt: &HostRuntime) -> u32 {
    let mut buffer = [0u8; WORD_BYTES];
    for i in 1..u32::MAX {
        match rt.arg(i as usize, &mut buffer) {
            Ok(n) if from_utf8(&buffer[..n]).is_ok() => {}
            _ => return i,
        }
    }
    u32::MAX
}

/// The words after the program's name. One that isn't UTF-8 is no key with a value. The other error is out
/// of memory.
pub fn words_of(rt: &HostRuntime, alloc: Global) -> Result<Words, Fault> {
    let given = match env::args(rt) {
        Ok(given) => given,
        Err(error) if error.kind() == ErrorKind::InvalidData => {
            return Err(Fault::Words(WordFault::BadWord(first_bad_word(rt))));
        }
        Err(_) => return Err(Fault::NoMemory),
    };
    let mut words = Words::new(alloc);
    for word in given.skip(1) {
        words.push(word.as_str())?;
    }
    Ok(words)
}
