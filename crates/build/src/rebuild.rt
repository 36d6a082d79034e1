// A subtree rebuilt in place over its slots.
// The tables go apart, as they are lent: of one struct of `&mut` tables each contract would have to say that they are the same tables again.
ghost use Rattle.std.specs.Prelude.{◌≡◌, suc, max, ◌^◌, ◌*◌, ◌≤◌, ◌<◌, length};
ghost use Rattle.cells.specs.Slots.{tall, Slot, Room};
ghost use Rattle.cells.specs.Memory.{Put};
ghost use Rattle.build.specs.Rebuilding.{Chosen, Rebuilt};

use cells::slot::{height_of, put_links};
use rank::key::SuperKey;

// Links s to l and r, with the height that follows.
pub fn refresh(links: &mut [usize], s: usize, l: usize, r: usize)
    requires slot { Slot (length links.old) s × ((3 * l ≤ length links.old) × (3 * r ≤ length links.old)) }
    requires r_bound { max (tall links.old l) (tall links.old r) < 2 ^ 63 }
    ensures { Put links.old links.new s l r (suc (max (tall links.old l) (tall links.old r))) }
{
    let h = height_of(links, l).max(height_of(links, r));
    put_links(links, s, l, r, h + 1);
}

// Ranks the slots, takes the middle one for the root and rebuilds both sides one cut deeper; returns the root. A few are linked directly.
pub fn rebuild(
    key: &SuperKey<'_>,
    links: &mut [usize],
    slots: &mut [usize],
    spare: &mut [usize],
) -> usize
    requires room { Room key.now.shape (length key.now.keys.now) (length links.old) }
    requires chosen { Chosen key.now.shape.c slots.old × (length spare.old ≡ length slots.old) }
    ensures { Rebuilt key.now.shape.k key.now.keys.now key.now.cut links.old links.new slots.old result }
{
    let n = slots.len();
    if n < 4 {
        crate::few::rebuild_few(key, links, slots)
    } else {
        key.rank(slots, spare);
        let m = n / 2;
        let s = slots[m];
        let cut = cells::order::next_cut(key.shape, key.cut);
        let next = SuperKey {
            keys: key.keys,
            shape: key.shape,
            cut,
        };
        let l = rebuild(&next, links, &mut slots[..m], &mut spare[..m]);
        let r = rebuild(&next, links, &mut slots[m + 1..], &mut spare[m + 1..]);
        refresh(links, s, l, r);
        s
    }
}
