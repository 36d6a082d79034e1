// A book: its totals, then its tree.
ghost use Rattle.std.specs.Prelude.{◌+◌, ◌*◌, ◌≤◌, length};
ghost use Rattle.model.specs.Show.{book_lines};
ghost use Rattle.weigh.specs.Books.{book_in};
ghost use Rattle.print.specs.Place.{Puts};
ghost use Rattle.page.specs.Trees.{totals};

use crate::tree::put_tree;
use crate::word::put_number;
use cells::pool::Pool;
use model::Shape;
use weigh::known::Known;

// The first line, with its LF.
pub fn put_totals(room: &mut [u8], entries: usize, height: usize, free: usize) -> usize
    requires { length (totals entries height free) ≤ length room.old }
    ensures { Puts room.old 0 (totals entries height free) room.new result }
{
    let a = put_number(room, 0, b"entries=", entries);
    let b = put_number(room, a, b" height=", height);
    let c = put_number(room, b, b" free=", free);
    room[c] = b'\n';
    c + 1
}

// The book of a pool that is known to be sound; no line is longer than 160 bytes.
pub fn put_book(known: &Known<'_>, room: &mut [u8]) -> usize
    requires { 160 * known.now.head.c + 160 ≤ length room.old }
    ensures { Puts room.old 0 (book_lines known.now.head.k (book_in known.now)) room.new result }
{
    let head = known.head;
    let height = cells::slot::height_of(known.links, head.root);
    let free = head.c - head.n;
    let at = put_totals(room, head.n, height, free);
    let pool = Pool {
        shape: Shape::from(head),
        keys: known.keys,
        links: known.links,
    };
    put_tree(&pool, head.root, 0, room, at)
}
