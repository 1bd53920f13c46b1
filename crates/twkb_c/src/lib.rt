//! The conversions for C: from a buffer to a buffer.
#![tactic(auto)]

mod arguments;
pub mod arrays;
mod column_words;
pub mod columns;
pub mod exports;
mod options;
