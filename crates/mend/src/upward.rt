// The upward check of one entry.
// The tables go apart, as they are lent: of one struct of `&mut` tables each contract would have to say that they are the same tables again.
ghost use Rattle.std.specs.Prelude.{◌≡◌, ◌<◌, length};
ghost use Rattle.cells.specs.Slots.{Room};
ghost use Rattle.model.specs.Tree.{even};
ghost use Rattle.mend.specs.Lists.{Blank, Kept};
ghost use Rattle.mend.specs.Mends.{Mendable, Mended, MendableOn, MendedOn};

use crate::lists::Lists;
use model::Shape;
use rank::key::SuperKey;
use seek::side::Side;

// Whether two heights differ by at most 1.
pub fn is_even(a: usize, b: usize) -> bool
    ensures { result ≡ even a b }
{
    a.abs_diff(b) <= 1
}

// Links s to l and r and checks it: kept where they are even enough, else its whole subtree is rebuilt; returns the root. The lists are blank before and after.
pub fn mend(
    keys: &[i64],
    links: &mut [usize],
    shape: Shape,
    cut: usize,
    s: usize,
    l: usize,
    r: usize,
    lists: &mut Lists<'_>,
) -> usize
    requires room { Room shape (length keys.now) (length links.old) × (cut < shape.k) }
    requires mendable { Mendable shape.k keys.now links.old s l r }
    requires lists { Blank shape.c lists.old }
    ensures tree { Mended shape.k keys.now links.old links.new cut s l r result }
    ensures lists { Kept shape.c lists.old lists.new }
{
    let even = is_even(
        cells::slot::height_of(links, l),
        cells::slot::height_of(links, r),
    );
    build::rebuild::refresh(links, s, l, r);
    if even {
        return s;
    }
    let key = SuperKey { keys, shape, cut };
    // Three slots are ranked where they are: most rebuilds are of three, and nothing need be copied.
    if let Some(few) = crate::little::three_at(links, s) {
        return build::few::rebuild_three(&key, links, few.low, few.middle, few.high);
    }
    let n = build::gather::gather(links, s, lists.scratch, 0);
    let slots = &mut lists.scratch[..n];
    let root = build::rebuild::rebuild(&key, links, slots, &mut lists.spare[..n]);
    slots.fill(0);
    root
}

// The same where the child on a side is new and the other one is as it was.
pub fn mend_on(
    keys: &[i64],
    links: &mut [usize],
    shape: Shape,
    cut: usize,
    s: usize,
    side: Side,
    child: usize,
    lists: &mut Lists<'_>,
) -> usize
    requires room { Room shape (length keys.now) (length links.old) × (cut < shape.k) }
    requires mendable_on { MendableOn shape.k keys.now links.old s side child }
    requires lists { Blank shape.c lists.old }
    ensures tree { MendedOn shape.k keys.now links.old links.new cut s side child result }
    ensures lists { Kept shape.c lists.old lists.new }
{
    let (l, r) = match side {
        Side::Left => (child, cells::slot::right_of(links, s)),
        Side::Right => (cells::slot::left_of(links, s), child),
    };
    mend(keys, links, shape, cut, s, l, r, lists)
}
