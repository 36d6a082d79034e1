// A new leaf put into a tree, and the upward check along its path.
// The tables go apart, as they are lent: of one struct of `&mut` tables each contract would have to say that they are the same tables again.
ghost use Rattle.std.specs.Prelude.{◌≡◌, ◌<◌, length};
ghost use Rattle.cells.specs.Slots.{Room};
ghost use Rattle.mend.specs.Lists.{Blank, Kept};
ghost use Rattle.alter.specs.Alters.{Insertable, Inserted, InsertedOn};

use mend::lists::Lists;
use model::Shape;
use seek::side::Side;
use std::cmp::Ordering;

// Puts the leaf in slot `new` into the tree at s and mends every entry of its path; returns the root.
#[cycle(insert_insert_on)]
pub fn insert(
    keys: &[i64],
    links: &mut [usize],
    shape: Shape,
    cut: usize,
    s: usize,
    new: usize,
    lists: &mut Lists<'_>,
) -> usize
    requires room { Room shape (length keys.now) (length links.old) × (cut < shape.k) }
    requires insertable { Insertable shape.k keys.now links.old s new }
    requires lists { Blank shape.c lists.old }
    ensures tree { Inserted shape.k keys.now links.old links.new cut s new result }
    ensures lists { Kept shape.c lists.old lists.new }
{
    if s == 0 {
        return new;
    }
    let side = match cells::slot::compare_slots(keys, shape, new, s, cut) {
        Ordering::Less => Side::Left,
        Ordering::Equal => return s,
        Ordering::Greater => Side::Right,
    };
    insert_on(keys, links, shape, cut, s, side, new, lists)
}

// The same into the child of s on a side; then s is mended.
#[cycle(insert_insert_on)]
pub fn insert_on(
    keys: &[i64],
    links: &mut [usize],
    shape: Shape,
    cut: usize,
    s: usize,
    side: Side,
    new: usize,
    lists: &mut Lists<'_>,
) -> usize
    requires room { Room shape (length keys.now) (length links.old) × ((cut < shape.k) × (0 < s)) }
    requires insertable { Insertable shape.k keys.now links.old s new }
    requires lists { Blank shape.c lists.old }
    ensures tree { InsertedOn shape.k keys.now links.old links.new cut s side new result }
    ensures lists { Kept shape.c lists.old lists.new }
{
    let next = cells::order::next_cut(shape, cut);
    let child = side.child_of(links, s);
    let grown = insert(keys, links, shape, next, child, new, lists);
    mend::upward::mend_on(keys, links, shape, cut, s, side, grown, lists)
}
