//! For tests alone: the tests of networks, of what follows in them, of reasons and of choices. They
//! use helpers of `pw_testing`. Each thing tested has a folder.
#![tactic(auto)]

#[cfg(test)]
mod choices;
#[cfg(test)]
mod networks;
#[cfg(test)]
mod reasons;
#[cfg(test)]
mod settling;
