// The replacement of a struck entry: the last entry of one of its sides, towards it, under its own super key.
ghost use Rattle.std.specs.Prelude.{◌≡◌, ◌≤◌, ◌<◌, length};
ghost use Rattle.model.proofs.Crowd.{InPool};
ghost use Rattle.cells.specs.Slots.{Keyed};
ghost use Rattle.ask.specs.Standing.{Standing};
ghost use Rattle.seek.specs.Seeks.{Better, Further, Sought};

use crate::side::Side;
use cells::pool::Pool;
use model::Shape;
use std::cmp::Ordering;

// The last towards an entry whose cut is `home`, in the tree at s, which is cut at `cut`. The two kinds of level take turns.
#[cycle(best_of_seek_seek_other_seek_same)]
pub fn seek(pool: &Pool<'_>, side: Side, home: usize, s: usize, cut: usize) -> usize
    requires here { (home < pool.now.shape.k) × ((cut < pool.now.shape.k) × (0 < s)) }
    requires standing { Standing pool.now.shape.k pool.now.keys.now pool.now.links.now s cut pool.now.shape.c }
    ensures { Sought pool.now.shape.k pool.now.keys.now pool.now.links.now side home s cut result }
{
    if cut == home {
        seek_same(pool, side, home, s, cut)
    } else {
        seek_other(pool, side, home, s, cut)
    }
}

// A level with the same cut as the struck entry: towards it lies the far child, or else the entry itself.
#[cycle(best_of_seek_seek_other_seek_same)]
pub fn seek_same(pool: &Pool<'_>, side: Side, home: usize, s: usize, cut: usize) -> usize
    requires here { (home ≡ cut) × ((cut < pool.now.shape.k) × (0 < s)) }
    requires standing { Standing pool.now.shape.k pool.now.keys.now pool.now.links.now s cut pool.now.shape.c }
    ensures { Sought pool.now.shape.k pool.now.keys.now pool.now.links.now side home s cut result }
{
    let far = side.other().child_of(pool.links, s);
    if far == 0 {
        return s;
    }
    let next = cells::order::next_cut(pool.shape, cut);
    seek(pool, side, home, far, next)
}

// Any other level: both children and the entry itself.
#[cycle(best_of_seek_seek_other_seek_same)]
pub fn seek_other(pool: &Pool<'_>, side: Side, home: usize, s: usize, cut: usize) -> usize
    requires here { (home < pool.now.shape.k) × ((cut < pool.now.shape.k) × (0 < s)) }
    requires standing { Standing pool.now.shape.k pool.now.keys.now pool.now.links.now s cut pool.now.shape.c }
    ensures { Sought pool.now.shape.k pool.now.keys.now pool.now.links.now side home s cut result }
{
    let next = cells::order::next_cut(pool.shape, cut);
    let l = cells::slot::left_of(pool.links, s);
    let r = cells::slot::right_of(pool.links, s);
    let best = best_of(pool, side, home, s, l, next);
    best_of(pool, side, home, best, r, next)
}

// The further of `best` and of what is sought in the tree at s; `best` where there is no tree.
#[cycle(best_of_seek_seek_other_seek_same)]
pub fn best_of(pool: &Pool<'_>, side: Side, home: usize, best: usize, s: usize, cut: usize) -> usize
    requires here { (home < pool.now.shape.k) × ((cut < pool.now.shape.k) × InPool pool.now.shape.c best) }
    requires standing { Standing pool.now.shape.k pool.now.keys.now pool.now.links.now s cut pool.now.shape.c }
    ensures { Better pool.now.shape.k pool.now.keys.now pool.now.links.now side home best s cut result }
{
    if s == 0 {
        return best;
    }
    let sought = seek(pool, side, home, s, cut);
    further(pool.keys, pool.shape, side, home, best, sought)
}

// Of two slots the one whose entry is the further towards the struck one.
pub fn further(keys: &[i64], shape: Shape, side: Side, home: usize, a: usize, b: usize) -> usize
    requires home_lt_k { (home < shape.k) × ((shape.k ≤ 4) × ((a ≤ 4096) × (b ≤ 4096))) }
    requires keyed { Keyed shape.k (length keys.now) a × Keyed shape.k (length keys.now) b }
    ensures { Further shape.k keys.now side home a b result }
{
    match (cells::slot::compare_slots(keys, shape, a, b, home), side) {
        (Ordering::Less, Side::Left) | (Ordering::Greater, Side::Right) => b,
        (Ordering::Less, Side::Right) | (Ordering::Greater, Side::Left) => a,
        (Ordering::Equal, _) => a,
    }
}
