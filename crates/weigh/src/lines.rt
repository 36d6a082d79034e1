// The entries of a text that is known to be a saved book: how many of them are new, and whether they have room.
ghost use Rattle.std.specs.Prelude.{◌≡◌, ◌+◌, ltb, length};
ghost use Rattle.model.specs.Ask.{new_of};
ghost use Rattle.model.specs.Calls.{entries_in};
ghost use Rattle.model.specs.Text.{parse};
ghost use Rattle.weigh.specs.Books.{entries_held};
ghost use Rattle.weigh.specs.Saved.{Saves};

use crate::known::Known;
use crate::pool::is_there;

// How many of the text's entries are not there. A text and its lines are two arguments: as one value they would still need the clause that its fields are the book's.
pub fn count_new(known: &Known<'_>, text: &[u8], lines: usize) -> usize
    requires { Saves text.now known.now.head.k lines }
    ensures { result ≡ length (new_of (entries_held known.now) (entries_in (parse text.now))) }
{
    let mut rest = text::first_entry(text);
    let mut new: usize = 0;
    for _ in 0..lines {
        let (entry, behind) = text::read_entry(rest, known.head.k);
        new += usize::from(!is_there(known, entry));
        rest = behind;
    }
    new
}

// Whether more of the text's entries are new than slots are free. They are counted only where not all of its lines have room.
pub fn too_many(known: &Known<'_>, text: &[u8], lines: usize) -> bool
    requires { Saves text.now known.now.head.k lines }
    ensures { result ≡ ltb known.now.head.c (known.now.head.n + length (new_of (entries_held known.now) (entries_in (parse text.now)))) }
{
    let free = known.head.c - known.head.n;
    free < lines && free < count_new(known, text, lines)
}
