//! For tests alone: the tests of the crates below networks, from kinds to declarations. Each thing
//! tested has a folder. (A crate with tests of its own would be proved twice.)
#![tactic(auto)]

#[cfg(test)]
mod declarations;
#[cfg(test)]
mod info;
#[cfg(test)]
mod kinds;
#[cfg(test)]
mod merges;
#[cfg(test)]
mod premises;
#[cfg(test)]
mod procs;
#[cfg(test)]
mod refusals;
#[cfg(test)]
mod registry;
#[cfg(test)]
mod store;
