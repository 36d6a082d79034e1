// Taking the text of a saved book apart.
#![tactic(auto)]

mod number; // number.rt: reading a number
mod line; // line.rt: reading an entry line
mod title; // title.rt: reading the first line
mod book; // book.rt: reading a whole text

pub use book::{first_entry, take_apart};
pub use line::read_entry;
pub use title::Title;

// Where a text stops being a saved book: the line, counted from 1.
#[derive(Clone, Copy)]
pub struct Broken {
    pub line: usize,
}
