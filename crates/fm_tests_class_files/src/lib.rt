// Tests of the layer of class files: their pools, their code, and whole files read and written.
//
// They call only what these crates make public, so that each of those is proved once and none is compiled
// for its tests.
#![tactic(auto)]

#[cfg(test)]
mod code_attributes;
#[cfg(test)]
mod decode;
#[cfg(test)]
mod generated;
#[cfg(test)]
mod layouts;
#[cfg(test)]
mod pool_entries;
#[cfg(test)]
mod pool_texts;
#[cfg(test)]
mod pools;
#[cfg(test)]
mod reading;
#[cfg(test)]
mod writing;
