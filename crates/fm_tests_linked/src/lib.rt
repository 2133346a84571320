// Tests of linking, of the flow of control, and of what the analysis knows of the methods of a program.
//
// They call only what these crates make public, so that each of those is proved once and none is compiled
// for its tests.
#![tactic(auto)]

#[cfg(test)]
mod analysis;
#[cfg(test)]
mod flows;
#[cfg(test)]
mod linking;
