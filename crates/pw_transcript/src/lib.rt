//! Transcripts: lines of commands in, numbered replies out.
#![tactic(auto)]

mod answer;
mod choice_text;
mod command_text;
mod gathered;
mod group_names;
mod input;
pub mod laws;
mod line_buffer;
mod progress;
mod reply_text;
mod sentence;
mod spoken;
mod transcript;

pub use command_text::read_command;
pub use input::{Input, Reading};
pub use reply_text::write_reply;
pub use transcript::{Lines, RunFault, run};
