//! The words of a call: which forms there are, what the words of each ask for, and the first word through which none begins.
//!
//! The words are read by hand, from the front: a form's first word picks it, and its parts and options follow.
mod making;
mod searches;
mod words;

pub use making::{MadeRunCommand, MakeCommand};
pub use words::{
    CheckCommand, Command, ConvertCommand, DeepenCommand, RunCommand, SessionCommand, read_command,
    workers_of,
};
