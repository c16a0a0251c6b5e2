//! One type of information over all kinds, and its texts; also lines and words, of which every text
//! is made.
#![tactic(auto)]

mod cut;
mod group_names;
mod info;
mod kind;
mod kind_names;
mod lanes;
pub mod laws;
mod lines;
mod member_text;
mod name;
mod number;
mod output;
mod range;
mod text;
mod text_lines;
mod word_names;
mod words;

pub use group_names::GroupNames;
pub use info::Info;
pub use kind::{Kind, SetKind};
pub use kind_names::KindNames;
pub use lines::next_line;
pub use name::is_name;
pub use output::{Failed, Output, Writing, put_all};
pub use text::{read_info, write_info};
pub use text_lines::TextLines;
pub use word_names::{are_names, read_name};
pub use words::{Words, allows_all, blank_len, idles, is_blank, word_len};
