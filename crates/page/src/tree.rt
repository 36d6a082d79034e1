// The tree: a line for each entry, before those of its left and then of its right side.
// The place stays beside the room, as in `print`.
ghost use Rattle.std.specs.Prelude.{◌+◌, ◌-◌, ◌≤◌, length};
ghost use Rattle.rank.specs.Ranking.{InTable};
ghost use Rattle.page.specs.Trees.{PutEntry, Printable, PutTree};

use crate::word::{put_cut, put_number};
use cells::pool::Pool;
use model::Shape;

// The line of the entry in slot s, which has at most 160 bytes; returns the place behind it.
pub fn put_entry(
    keys: &[i64],
    shape: Shape,
    s: usize,
    depth: usize,
    room: &mut [u8],
    at: usize,
) -> usize
    requires le_k { ((1 ≤ shape.k) × (shape.k ≤ 4)) × InTable shape.k (length keys.now) s }
    requires at_in_bounds { at + 160 ≤ length room.old }
    ensures { PutEntry shape.k keys.now s depth room.old room.new at result }
{
    let e = cells::slot::entry_at(keys, shape, s);
    let a = put_number(room, at, b"slot=", s);
    let b = put_number(room, a, b" depth=", depth);
    let c = put_cut(room, b, depth % shape.k);
    print::put_line(room, c, &e.f[..shape.k])
}

// The lines of the tree at s, whose root is at a depth; returns the place behind them.
pub fn put_tree(pool: &Pool<'_>, s: usize, depth: usize, room: &mut [u8], at: usize) -> usize
    requires { (at ≤ length room.old) × Printable pool.now.shape.k pool.now.keys.now pool.now.links.now s depth (length room.old - at) }
    ensures { PutTree pool.now.shape.k pool.now.keys.now pool.now.links.now s depth room.old room.new at result }
{
    if s == 0 {
        return at;
    }
    let left = cells::slot::left_of(pool.links, s);
    let right = cells::slot::right_of(pool.links, s);
    let here = put_entry(pool.keys, pool.shape, s, depth, room, at);
    let behind = put_tree(pool, left, depth + 1, room, here);
    put_tree(pool, right, depth + 1, room, behind)
}
