// Tests of the lowest layer: numbers, files, cells, arithmetic, the command line, and the class files for
// tests.
//
// They call only what these crates make public, so that each of those is proved once and none is compiled
// for its tests.
#![tactic(auto)]

#[cfg(test)]
mod alu;
#[cfg(test)]
mod base;
#[cfg(test)]
mod cells;
#[cfg(test)]
mod class_samples;
#[cfg(test)]
mod cli;
#[cfg(test)]
mod faulty_disk;
#[cfg(test)]
mod files;
#[cfg(test)]
mod fmrun_words;
#[cfg(test)]
mod freeme_words;
#[cfg(test)]
mod program_samples;
