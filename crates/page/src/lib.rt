// What the program prints for a text, as bytes in a lent room.
#![tactic(auto)]

ghost use Rattle.page.specs.Texts.{Shown};

use model::Refusal;
use text::Broken;

mod pool; // pool.rt: the totals and the tree of a book
mod refusal; // refusal.rt: the line of a refusal
mod taken; // taken.rt: a saved book taken into a fresh pool
mod tree; // tree.rt: a line for each entry
mod word; // word.rt: a word and a number, and what else a line is made of

// Room for the longest print: a line of totals and 512 entries, none of them longer than 160 bytes.
pub const ROOM: usize = 82080;

// Prints to the front of the room what the program prints for a text, of any length; returns how many bytes that is.
pub fn shown(input: &[u8], room: &mut [u8; ROOM]) -> usize
    ensures { Shown input.now room.old room.new result }
{
    if 32768 < input.len() {
        return print::put_bytes(room, 0, b"too_long=32768\n");
    }
    match text::take_apart(input) {
        Err(Broken { line }) => refusal::put_refusal(room, Refusal::Text, line),
        Ok(title) => {
            let k = title.fields;
            let mut keys = [0i64; 2048];
            let mut links = [0usize; 1536];
            let mut scratch = [0usize; 512];
            let z = k * 512;
            taken::put_taken(input, k, &mut keys[..z], &mut links, &mut scratch, room)
        }
    }
}
