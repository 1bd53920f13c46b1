//! The command over files: they are opened by their names, and an output is written whole or not at
//! all.
#![tactic(auto)]

mod conversion;
mod new_file;
mod replacement;
mod screen;
mod target;
mod watched;

pub use conversion::convert_files;
pub use replacement::{Replacement, Stage, settle};
pub use screen::Screen;
