// The words of a case.
use crate::dice::Dice;
use crate::pool::World;
use std::alloc::{AllocError, Global};

const LINES: &[&str] = &[
    "trial n=3 width=6 height=5 rounds=1",
    "trial n=4294967295 width=1 height=2 place=grid rounds=0 seed=18446744073709551615",
    "quilt sample=s out=o map=m record=r width=5 height=4 block=2 overlap=1 seed=2",
    "quilt sample=t out=o map=m record=r width=4096 height=4096",
    "loop sample=s out=o map=m record=r length=4",
    "loop sample=t out=o map=m record=r length=7 taps=2",
    "loop sample=s out=o map=m record=r length=400 taps=0",
    "grow sample=t out=o map=m record=r width=4 height=4 frames=2 box=2",
    "grow sample=s sample2=t sample3=u out=o map=m record=r width=4 height=3",
    "grow sample=s out=o map=m record=r width=1025 height=1024",
    "grow sample=t out=o map=m record=r width=4 height=3 box=2 turns=all",
    "grow sample=s sample2=t sample3=u out=o map=m record=r width=4 height=3 turns=all",
    "tile sample=s out=o map=m width=5 height=4 box=2 overlap=1 seed=2",
    "tile sample=t out=o map=m width=4 height=3 frames=3 wrap=xyf box=3",
    "tile sample=s out=o map=m width=2 height=3 wrap=y",
    "transfer sample=s target=t out=o map=m record=r block=2 overlap=1",
    "transfer sample=t target=s out=o map=m record=r alpha=0 tol=0 seed=4",
    "transfer sample=t target=u out=o map=m record=r alpha=100 block=3",
    "merge sample=s sample2=t marks=u out=o map=m",
    "merge sample=t sample2=s marks=u out=o map=m",
    "upgrade map=n record=q newmap=m newrecord=r",
    "upgrade map=s record=r newmap=o newrecord=q",
    "check sample=s sample2=s out=o map=m record=r",
    "check sample=o out=s map=m record=r",
    "check sample=s out=o map=m record=r turns=all",
];

const VALUES: &[&str] = &[
    "0",
    "1",
    "2",
    "3",
    "4",
    "5",
    "7",
    "9",
    "64",
    "4097",
    "007",
    "18446744073709551615",
    "18446744073709551616",
    "99999999999999999999",
    "",
    "x",
    "-1",
    "+1",
    "1.5",
    "s",
    "t",
    "o",
    "m",
    "r",
    "n",
    "q",
    "none",
    "all",
    "grid",
    "random",
    "whole",
    "sub",
    "best",
    "=",
    "a=b",
];

const ODD_WORDS: &[&str] = &[
    "",
    "=",
    "=x",
    "sample",
    "width",
    "grow",
    "check",
    "seed=1",
    "tol=1000",
    "tol=1001",
    "gap=256",
    "taps=2",
    "rounds=1",
    "place=grid",
    "wrap=x",
    "overlap=4095",
    "frames=2",
    "sample2=u",
    "sample3=t",
    "sample16=t",
    "sample17=t",
    "marks=u",
    "target=u",
    "alpha=100",
    "alpha=101",
    "turns=all",
    "turns=none",
    "newmap=q",
    "--help",
    "größe=3",
    "a b=c d",
];

// The keys, beside those of samples, of the words that `check` knows.
const OF_CHECK: [&str; 4] = ["out", "map", "record", "turns"];

fn put(alloc: Global, texts: &mut Vec<String>, word: &str) -> Result<(), AllocError> {
    texts.push(String::from_str(alloc, word)?)?;
    Ok(())
}

// The word with another value.
fn put_value(
    alloc: Global,
    texts: &mut Vec<String>,
    word: &str,
    dice: &mut Dice,
) -> Result<(), AllocError> {
    let key = match word.split_once('=') {
        Some((key, _)) => key,
        None => word,
    };
    let value = dice.text(VALUES);
    texts.push(format!(in alloc; "{key}={value}")?)?;
    Ok(())
}

// The word as it is, or, in one of four cases where words are changed, left out, doubled, after
// another one or in its place, or with another value.
fn put_word(
    alloc: Global,
    texts: &mut Vec<String>,
    word: &str,
    are_changed: bool,
    dice: &mut Dice,
) -> Result<(), AllocError> {
    if !are_changed || dice.below(4) > 0 {
        return put(alloc, texts, word);
    }
    let way = dice.below(8);
    if way == 0 {
        return Ok(());
    }
    if way >= 4 {
        return put_value(alloc, texts, word, dice);
    }
    let first = if way == 1 { word } else { dice.text(ODD_WORDS) };
    put(alloc, texts, first)?;
    if way == 2 {
        return Ok(());
    }
    put(alloc, texts, word)
}

/// Puts the words of a run, of its check or of another one; in one of four cases some of them are
/// changed.
pub fn put_words(
    alloc: Global,
    texts: &mut Vec<String>,
    world: &World,
    dice: &mut Dice,
) -> Result<(), AllocError> {
    let are_changed = dice.below(4) == 0;
    let line = match dice.below(12) {
        0 | 1 | 2 | 3 => world.words,
        4 | 5 | 6 | 7 => world.check,
        8 => "check sample=s out=o map=n record=q",
        9 => "upgrade map=m record=r newmap=n newrecord=q",
        _ => dice.text(LINES),
    };
    for word in line.split(' ') {
        put_word(alloc, texts, word, are_changed, dice)?;
    }
    Ok(())
}

/// Adds words to a line, each with a blank after it: all of them, or those alone that have `check`
/// look at what a run left.
pub fn add_line(line: &mut String, texts: &[String], are_all: bool) -> Result<(), AllocError> {
    for text in texts.iter() {
        let key = match text.as_str().split_once('=') {
            Some((key, _)) => key,
            None => "",
        };
        if are_all || key.starts_with("sample") || OF_CHECK.contains(&key) {
            line.push_str(text.as_str())?;
            line.push(' ')?;
        }
    }
    Ok(())
}
