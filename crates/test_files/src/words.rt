// The words of lines.
use job_words::Words;
use std::alloc::{AllocError, Global};

fn add_words(words: &mut Words, line: &str) -> Result<(), AllocError> {
    let mark = if line.contains('|') { '|' } else { ' ' };
    for word in line.split(mark) {
        words.push(word)?;
    }
    Ok(())
}

/// The words of a line, which blanks part, or bars where it has one: so words with a blank have
/// lines too. (A list of words as a constant is several times as long to prove as one text.)
pub fn words_of(alloc: Global, line: &str) -> Result<Words, AllocError> {
    let mut words = Words::new(alloc);
    add_words(&mut words, line)?;
    Ok(words)
}
