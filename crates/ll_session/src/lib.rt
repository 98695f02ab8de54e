//! Sessions: many queries over one program, each a line of a text.
#![tactic(auto)]

mod answering;
mod asking;
mod laws;
mod lines;
mod replies;

pub use answering::{answer_lines, on_line, session};
pub use asking::ask_text;
pub use laws::one_session;
pub use lines::{is_query_line, split_line};
pub use replies::{Asked, Replies};
