// One entry taken out of a tree.
// The tables go apart, as they are lent: of one struct of `&mut` tables each contract would have to say that they are the same tables again.
ghost use Rattle.std.specs.Prelude.{◌≡◌, ◌<◌, length, take};
ghost use Rattle.cells.specs.Slots.{numbers_of, Room};
ghost use Rattle.mend.specs.Lists.{Blank, Kept};
ghost use Rattle.alter.specs.Strikes.{Strikable, StrikableOn, StruckOut, StruckOn};

use cells::pool::Pool;
use mend::lists::Lists;
use model::{Entry, Shape};
use seek::side::Side;
use std::cmp::Ordering;

// The root that is left and the slot that is given up, None where the entry is not there.
#[derive(Clone, Copy)]
pub struct Struck {
    pub root: usize,
    pub freed: Option<usize>,
}

// Strikes an entry from the tree at s; every former ancestor of the leaf that goes is mended.
#[cycle(replace_strike_strike_on)]
pub fn strike(
    keys: &mut [i64],
    links: &mut [usize],
    shape: Shape,
    cut: usize,
    s: usize,
    e: Entry,
    lists: &mut Lists<'_>,
) -> Struck
    requires room { Room shape (length keys.old) (length links.old) × (cut < shape.k) }
    requires strikable { Strikable shape.k keys.old links.old s cut }
    requires lists { Blank shape.c lists.old }
    ensures tree { StruckOut shape.k keys.old keys.new links.old links.new cut s (take shape.k e.f) result }
    ensures lists { Kept shape.c lists.old lists.new }
{
    if s == 0 {
        return Struck {
            root: 0,
            freed: None,
        };
    }
    let side = match cells::slot::compare_entry(e, keys, shape, s, cut) {
        Ordering::Less => Side::Left,
        Ordering::Equal => return replace(keys, links, shape, cut, s, lists),
        Ordering::Greater => Side::Right,
    };
    strike_on(keys, links, shape, cut, s, side, e, lists)
}

// The entry at s itself: a leaf goes; else its replacement's numbers are copied here and struck from their side.
#[cycle(replace_strike_strike_on)]
pub fn replace(
    keys: &mut [i64],
    links: &mut [usize],
    shape: Shape,
    cut: usize,
    s: usize,
    lists: &mut Lists<'_>,
) -> Struck
    requires room { Room shape (length keys.old) (length links.old) × ((cut < shape.k) × (0 < s)) }
    requires strikable { Strikable shape.k keys.old links.old s cut }
    requires lists { Blank shape.c lists.old }
    ensures tree { StruckOut shape.k keys.old keys.new links.old links.new cut s (numbers_of shape.k keys.old s) result }
    ensures lists { Kept shape.c lists.old lists.new }
{
    let side = Side::higher(links, s);
    let child = side.child_of(links, s);
    if child == 0 {
        return Struck {
            root: 0,
            freed: Some(s),
        };
    }
    let next = cells::order::next_cut(shape, cut);
    let pool = Pool {
        shape,
        keys: &*keys,
        links: &*links,
    };
    let heir = seek::search::seek(&pool, side, cut, child, next);
    let numbers = cells::slot::entry_at(keys, shape, heir);
    cells::slot::put_entry(keys, shape, s, numbers);
    strike_on(keys, links, shape, cut, s, side, numbers, lists)
}

// Strikes an entry from the child of s on a side; then s is mended.
#[cycle(replace_strike_strike_on)]
pub fn strike_on(
    keys: &mut [i64],
    links: &mut [usize],
    shape: Shape,
    cut: usize,
    s: usize,
    side: Side,
    e: Entry,
    lists: &mut Lists<'_>,
) -> Struck
    requires room { Room shape (length keys.old) (length links.old) × ((cut < shape.k) × (0 < s)) }
    requires strikable_on { StrikableOn shape.k keys.old links.old s cut side }
    requires lists { Blank shape.c lists.old }
    ensures tree { StruckOn shape.k keys.old keys.new links.old links.new cut s side (take shape.k e.f) result }
    ensures lists { Kept shape.c lists.old lists.new }
{
    let next = cells::order::next_cut(shape, cut);
    let child = side.child_of(links, s);
    let x = strike(keys, links, shape, next, child, e, lists);
    let root = mend::upward::mend_on(keys, links, shape, cut, s, side, x.root, lists);
    Struck { root, ..x }
}
