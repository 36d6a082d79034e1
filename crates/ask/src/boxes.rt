// The slots of a box, by a walk that leaves out a side where the cut shuts it out.
ghost use Rattle.std.specs.Prelude.{◌≡◌, ◌-◌, ◌≤◌, ◌<◌, length};
ghost use Rattle.cells.specs.Slots.{numbers_of, Keyed};
ghost use Rattle.ask.specs.Standing.{Standing};
ghost use Rattle.ask.specs.Boxes.{is_lower_open, is_upper_open, Weighed, Noted, Collected};

use cells::pool::Pool;
use model::{Bound, Shape};

// Whether a bound can hold a number that is not above x. Its two arms are not one: a signed number that an or-pattern binds cannot be proved about today.
#[tactic(auto, using(gauge::proofs::Boxes::le_back), unfolding(crate::specs::Boxes::is_lower_open))]
pub fn lower_open(b: Bound, x: i64) -> bool
    ensures { result ≡ is_lower_open b x }
{
    match b {
        Bound::Free | Bound::AtMost(_) => true,
        Bound::AtLeast(lo) => lo <= x,
        Bound::Between(lo, _) => lo <= x,
    }
}

// Whether a bound can hold a number that is not below x; the mirror image, and each is plainer by itself than one with a side to tell.
#[tactic(auto, using(gauge::proofs::Boxes::le_back), unfolding(crate::specs::Boxes::is_upper_open))]
pub fn upper_open(b: Bound, x: i64) -> bool
    ensures { result ≡ is_upper_open b x }
{
    match b {
        Bound::Free | Bound::AtLeast(_) => true,
        Bound::AtMost(hi) => x <= hi,
        Bound::Between(_, hi) => x <= hi,
    }
}

// What a box says at an entry: whether it can reach below and above the entry's cut field, and whether it holds the entry.
#[derive(Clone, Copy)]
pub struct Sides {
    pub lower: bool,
    pub here: bool,
    pub upper: bool,
}

// An entry, as a part of the key table, weighed against a box.
pub fn weigh(part: &[i64], cut: usize, bounds: [Bound; 4]) -> Sides
    requires { (cut < length part.now) × (length part.now ≤ 4) }
    ensures { Weighed bounds part.now cut result }
{
    Sides {
        lower: lower_open(bounds[cut], part[cut]),
        here: gauge::bounds::inside(bounds, part),
        upper: upper_open(bounds[cut], part[cut]),
    }
}

// The entry in a slot weighed.
pub fn weigh_slot(keys: &[i64], shape: Shape, s: usize, cut: usize, bounds: [Bound; 4]) -> Sides
    requires cut_lt_k { (cut < shape.k) × ((shape.k ≤ 4) × (s ≤ 4096)) }
    requires keyed { Keyed shape.k (length keys.now) s }
    ensures { Weighed bounds (numbers_of shape.k keys.now s) cut result }
{
    weigh(cells::slot::numbers(keys, shape, s), cut, bounds)
}

// Notes a slot at a place where it is one of the box; returns the place behind. The choice has a function of its own, since a fact is lost where its branches join before the next call.
pub fn note(wanted: bool, s: usize, slots: &mut [usize], at: usize) -> usize
    requires { at < length slots.old }
    ensures { Noted wanted s slots.old slots.new at result }
{
    if !wanted {
        return at;
    }
    slots[at] = s;
    at + 1
}

// Notes the slots of the box in the tree at s from `at` on, in the tree's order; returns the place behind them.
pub fn collect(
    pool: &Pool<'_>,
    s: usize,
    cut: usize,
    bounds: [Bound; 4],
    slots: &mut [usize],
    at: usize,
) -> usize
    requires cut_lt_k { cut < pool.now.shape.k }
    requires at_in_bounds { (at ≤ length slots.old) × Standing pool.now.shape.k pool.now.keys.now pool.now.links.now s cut (length slots.old - at) }
    ensures { Collected pool.now.shape.k pool.now.keys.now pool.now.links.now s cut bounds slots.old slots.new at result }
{
    if s == 0 {
        return at;
    }
    let w = weigh_slot(pool.keys, pool.shape, s, cut, bounds);
    let next = cells::order::next_cut(pool.shape, cut);
    let mut m = at;
    if w.lower {
        let l = cells::slot::left_of(pool.links, s);
        m = collect(pool, l, next, bounds, slots, at);
    }
    let n = note(w.here, s, slots, m);
    if w.upper {
        let r = cells::slot::right_of(pool.links, s);
        return collect(pool, r, next, bounds, slots, n);
    }
    n
}
