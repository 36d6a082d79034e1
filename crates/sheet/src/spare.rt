// The lists of slots that a call needs which is lent none.
ghost use Rattle.std.specs.Prelude.{◌≡◌, length};
ghost use Rattle.model.specs.Tree.{Tree};
ghost use Rattle.ask.specs.Boxes.{slots_in};
ghost use Rattle.ask.specs.Standing.{Stands};
ghost use Rattle.sheet.specs.Listing.{FilledWith};
ghost use Rattle.sheet.specs.Saving.{PrintedWith};

use crate::listing::{TooMany, fill};
use crate::saving::print;
use ask::boxes::collect;
use cells::pool::Pool;
use model::{Bound, Shape};
use weigh::known::Known;
use weigh::with_lists;

// How many entries of the tree a box holds.
pub fn count(known: &Known<'_>, bounds: [Bound; 4]) -> usize
    ensures { (u : Tree) → Stands known.now.head.k known.now.keys.now known.now.links.now known.now.head.root 0 u → result ≡ length (slots_in bounds u) }
{
    let head = known.head;
    let pool = Pool {
        shape: Shape::from(head),
        keys: known.keys,
        links: known.links,
    };
    with_lists!(head.c; slots; collect(&pool, head.root, 0, bounds, slots, 0))
}

// Writes the entries of the box in listing order to the room, where they fit.
pub fn list(known: &Known<'_>, bounds: [Bound; 4], room: &mut [i64]) -> Result<usize, TooMany>
    ensures { FilledWith known.now.head.k known.now.keys.now known.now.links.now known.now.head.root bounds room.old room.new result }
{
    let head = known.head;
    let pool = Pool {
        shape: Shape::from(head),
        keys: known.keys,
        links: known.links,
    };
    with_lists!(head.c; slots, spare; fill(&pool, head.root, bounds, slots, spare, room))
}

// Writes the text of the book to the room, where it fits.
pub fn save(known: &Known<'_>, room: &mut [u8]) -> Option<usize>
    ensures { PrintedWith known.now.head.k known.now.keys.now known.now.links.now known.now.head.root room.old room.new result }
{
    let head = known.head;
    let pool = Pool {
        shape: Shape::from(head),
        keys: known.keys,
        links: known.links,
    };
    with_lists!(head.c; slots, spare; print(&pool, head.root, slots, spare, room))
}
