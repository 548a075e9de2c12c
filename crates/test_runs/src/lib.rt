//! Whole runs of every command: the files, the report and the line after each status; and the shelf
//! over the system's files, with runs over it. What is expected is spelled by hand from the rules
//! of records, the formats of the files and the texts of reports and faults. Costs and walks were
//! found by trying each boundary and each walk, and picks of transfers by trying each candidate;
//! maps and seams of tilings by hand, and by a plain program that tries every choice of each patch
//! (checks/random_tiles.py). The patches that are drawn over turns are the program's own; a
//! verifier that shares nothing with it (tools/verify.py) accepts each run.
#![tactic(auto)]

#[cfg(test)]
mod block_rules;
#[cfg(test)]
mod clips;
#[cfg(test)]
mod cut_rules;
#[cfg(test)]
mod disk;
#[cfg(test)]
mod disk_grow;
#[cfg(test)]
mod disk_opened;
#[cfg(test)]
mod disk_runs;
#[cfg(test)]
mod equal;
#[cfg(test)]
mod failing;
#[cfg(test)]
mod great;
#[cfg(test)]
mod growing;
#[cfg(test)]
mod hostile;
#[cfg(test)]
mod keys;
#[cfg(test)]
mod lifted;
#[cfg(test)]
mod loop_rules;
#[cfg(test)]
mod looped;
#[cfg(test)]
mod merged;
#[cfg(test)]
mod quilting;
#[cfg(test)]
mod refused;
#[cfg(test)]
mod said;
#[cfg(test)]
mod samples;
#[cfg(test)]
mod several;
#[cfg(test)]
mod sizes;
#[cfg(test)]
mod tables;
#[cfg(test)]
mod tiled;
#[cfg(test)]
mod transferred;
#[cfg(test)]
mod trials;
#[cfg(test)]
mod turning;
