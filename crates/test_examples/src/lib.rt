//! Worked examples, as tests alone: volumes, maps and canvases, seam costs and their sums, and cut records; match errors,
//! candidates and picks, networks and their flows, placements, and whole grown, quilted and tiled runs; sums over rows,
//! boundaries through strips, distances of frames and steps between them, loops, marks and steps of merges, transfers whole
//! and block by block, turned samples and the files of their maps; and records and files that don't stand. No clause says
//! what they show: that calls succeed where there is memory, and that the definitions give the numbers that were computed by
//! hand or by another program.
#![tactic(auto)]

#[cfg(test)]
mod boundaries;
#[cfg(test)]
mod canvases;
#[cfg(test)]
mod cases;
#[cfg(test)]
mod cut_records;
#[cfg(test)]
mod cuts;
#[cfg(test)]
mod draws;
#[cfg(test)]
mod eliminations;
#[cfg(test)]
mod expect;
#[cfg(test)]
mod frames;
#[cfg(test)]
mod growths;
#[cfg(test)]
mod laying;
#[cfg(test)]
mod loops;
#[cfg(test)]
mod marking;
#[cfg(test)]
mod match_sums;
#[cfg(test)]
mod merge_steps;
#[cfg(test)]
mod networks;
#[cfg(test)]
mod offsets;
#[cfg(test)]
mod picks;
#[cfg(test)]
mod pictures;
#[cfg(test)]
mod placements;
#[cfg(test)]
mod quilts;
#[cfg(test)]
mod remade;
#[cfg(test)]
mod rows;
#[cfg(test)]
mod samples;
#[cfg(test)]
mod seam_sums;
#[cfg(test)]
mod steps;
#[cfg(test)]
mod tables;
#[cfg(test)]
mod tilings;
#[cfg(test)]
mod transfer_steps;
#[cfg(test)]
mod transfers;
#[cfg(test)]
mod turned_files;
#[cfg(test)]
mod turns;
#[cfg(test)]
mod volumes;
