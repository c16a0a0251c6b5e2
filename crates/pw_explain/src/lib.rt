//! What is wrong with a faulty line of a declaration or of a transcript: the word at fault, what
//! was expected in its place, and the nearest name of that sort.
#![tactic(auto)]

mod before;
mod call;
mod choice;
mod command;
mod command_form;
mod cut;
mod declaration;
mod expected;
mod explanation;
mod form;
mod line_numbers;
mod near;
mod shape;
mod sort;
mod spot;
mod unread;

pub use command::explain_refusal;
pub use cut::{Cut, cut_at};
pub use declaration::{explain_fault, explain_text_fault};
pub use expected::Expected;
pub use explanation::{Explanation, write_explanation, write_line};
pub use spot::{Place, Spot, place_of};
pub use unread::Unread;
