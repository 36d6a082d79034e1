// Printing the text of a saved book.
#![tactic(auto)]

mod size; // size.rt: how long each print is
mod write; // write.rt: printing at a place

pub use size::{line_length, title_length};
pub use write::{end_byte, put_bytes, put_decimal, put_line, put_title};
