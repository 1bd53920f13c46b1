//! The command over any reader and writers: `clap` reads its words, and the job that they ask for
//! is carried out.
#![tactic(auto)]

mod command_line;
mod exit_code;
mod given;
mod help;
mod jobs;
mod joined;
mod lines;
mod misuse;
mod misused;
mod outcome;
mod refusal;
mod request;
mod runs;
mod stop;
mod words;

pub use exit_code::status;
pub use joined::joined_words;
pub use lines::print_line;
pub use misuse::{Misuse, Word};
pub use outcome::{carry_out, refuse, report_file_fault, report_no_memory, report_unread_words};
pub use refusal::Refusal;
pub use request::{ColumnWords, Job, Request};
pub use runs::run;
pub use words::read_words;
