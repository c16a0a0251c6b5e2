//! For tests alone: the tests of commands over one workbench, without a run. They count calls of
//! procedures, and compare replies to random calls with answers by rounds. The helpers that they
//! share with other test crates are in `pw_testing`.
#![tactic(auto)]

#[cfg(test)]
mod counting;
#[cfg(test)]
mod random;
#[cfg(test)]
mod replying;
