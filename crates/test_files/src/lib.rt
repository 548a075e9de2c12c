//! Files and words that come in, and the lines and files that small runs leave: worked examples to
//! the byte. No clause says what they show: that calls succeed while there is memory, and that the
//! definitions give the bytes and the numbers that were spelled by hand from grammars and rules,
//! files that other programs wrote, or the numbers of a program that is no part of weave.
//!
//! README.md says what each module tries.
#![tactic(auto)]

#[cfg(test)]
mod answers;
#[cfg(test)]
mod blocks;
#[cfg(test)]
mod claims;
#[cfg(test)]
mod clips;
#[cfg(test)]
mod copies;
#[cfg(test)]
mod cuts;
#[cfg(test)]
mod expect;
#[cfg(test)]
mod files;
#[cfg(test)]
mod jobs;
#[cfg(test)]
mod map_files;
#[cfg(test)]
mod maps;
#[cfg(test)]
mod numbered_cuts;
#[cfg(test)]
mod numbers;
#[cfg(test)]
mod pictures;
#[cfg(test)]
mod readers;
#[cfg(test)]
mod records;
#[cfg(test)]
mod reports;
#[cfg(test)]
mod rows;
#[cfg(test)]
mod runs;
#[cfg(test)]
mod samples;
#[cfg(test)]
mod shelves;
#[cfg(test)]
mod standing;
#[cfg(test)]
mod tables;
#[cfg(test)]
mod trials;
#[cfg(test)]
mod walk;
#[cfg(test)]
mod words;
