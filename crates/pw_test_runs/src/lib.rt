//! For tests alone: the tests of whole runs. They try transcripts over ends that work and ends that
//! fail, and refused growths. Helpers come first (`sessions`, `ends`), beside those of
//! `pw_testing`; then comes what is tested.
#![tactic(auto)]

#[cfg(test)]
mod ends;
#[cfg(test)]
mod run;
#[cfg(test)]
mod sessions;
