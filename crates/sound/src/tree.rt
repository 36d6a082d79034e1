// Whether the tree in a pool is right: one pass, each entry against the tightest bound of each cut and side.
ghost use Rattle.std.specs.Prelude.{◌≡◌, ◌*◌, ◌<◌, ◌≤◌, length, get_or, set, pos, replicate};
ghost use Rattle.cells.specs.Slots.{Room, Slot, numbers_of};
ghost use Rattle.sound.specs.Parts.{Tells};
ghost use Rattle.sound.specs.Tree.{Before, Inside, BoundsIn, Between, Amid, Edged, Over, Tops, Judged, Asked, Whole};

use cells::pool::Pool;
use model::Shape;
use std::cmp::Ordering;

// The bounds of a side, a slot for each cut and end, 0 for none, and their edges, each bound's number in the field of its cut.
// The lower ones of cut i lie at i, the upper ones at 4 + i, as the definitions have them; 0 is no slot, as in the link table that they are read from.
#[derive(Drop)]
pub struct Fence {
    pub bounds: [usize; 8],
    pub edges: [i64; 8],
}

impl Fence {
    // No bounds yet, and edges that no number is beyond.
    pub fn open() -> Fence
        ensures { (result.bounds ≡ replicate 8 0) × (length result.edges ≡ 8) }
    {
        let low = i64::MIN;
        let high = i64::MAX;
        Fence {
            bounds: [0; 8],
            edges: [low, low, low, low, high, high, high, high],
        }
    }

    // Sets a bound and its edge at one place; returns what was there.
    pub fn put(&mut self, at: usize, bound: usize, edge: i64) -> (usize, i64)
        requires { at < 8 }
        ensures bounds { self.new.bounds ≡ set self.old.bounds at bound }
        ensures edges { self.new.edges ≡ set self.old.edges at edge }
        ensures was { (result.0 ≡ get_or self.old.bounds at 0) × (result.1 ≡ get_or self.old.edges at (pos 0)) }
    {
        let was = (self.bounds[at], self.edges[at]);
        self.bounds[at] = bound;
        self.edges[at] = edge;
        was
    }
}

// Whether slot a is before slot b at a cut, where both are slots.
#[tactic(auto, using(crate::proofs::Marks::before_told))]
pub fn before(keys: &[i64], shape: Shape, a: usize, b: usize, cut: usize) -> bool
    requires { Room shape (length keys.now) (3 * shape.c) × ((cut < shape.k) × ((a ≤ shape.c) × (b ≤ shape.c))) }
    ensures { Tells (Before shape.k keys.now cut a b) result }
{
    a == 0 || b == 0 || cells::slot::compare_slots(keys, shape, a, b, cut) == Ordering::Less
}

// Whether slot s is inside the bounds: the lower one of cut i at i, the upper one at 4 + i, 0 for none.
#[cold]
pub fn inside(keys: &[i64], shape: Shape, s: usize, bounds: &[usize; 8]) -> bool
    requires { Room shape (length keys.now) (3 * shape.c) × (Slot (3 * shape.c) s × BoundsIn shape.c bounds.now) }
    ensures { Tells (Inside shape.k keys.now bounds.now (numbers_of shape.k keys.now s)) result }
{
    for i in 0..shape.k {
        if !before(keys, shape, bounds[i], s, i) || !before(keys, shape, s, bounds[4 + i], i) {
            return false;
        }
    }
    true
}

// Whether a number is more than one and less than another.
pub fn between(low: i64, x: i64, high: i64) -> bool
    ensures { Tells (Between low x high) result }
{
    low < x && x < high
}

// Whether slot s is amid the edges: each of its numbers between the lower one at i and the upper one at 4 + i.
pub fn amid(keys: &[i64], shape: Shape, s: usize, edges: &[i64; 8]) -> bool
    requires { Room shape (length keys.now) (3 * shape.c) × Slot (3 * shape.c) s }
    ensures { Tells (Amid shape.k edges.now (numbers_of shape.k keys.now s)) result }
{
    for i in 0..shape.k {
        let x = cells::slot::number_at(keys, shape, s, i);
        if !between(edges[i], x, edges[4 + i]) {
            return false;
        }
    }
    true
}

// Whether slot s is inside the bounds. Their edges, their numbers in the fields of their cuts, tell nearly always; a tie asks for the rest.
pub fn enclosed(keys: &[i64], shape: Shape, s: usize, fence: &Fence) -> bool
    requires room { Room shape (length keys.now) (3 * shape.c) × (Slot (3 * shape.c) s × BoundsIn shape.c fence.now.bounds) }
    requires edged { Edged shape.k keys.now fence.now.bounds fence.now.edges }
    ensures { Tells (Inside shape.k keys.now fence.now.bounds (numbers_of shape.k keys.now s)) result }
{
    amid(keys, shape, s, &fence.edges) || inside(keys, shape, s, &fence.bounds)
}

// Whether h is the height over sides of heights a and b that are even enough: it is 1 or 2 above each, and not 2 above both.
// No branch asks which side is higher: that is nothing that a machine could guess.
pub fn over(h: usize, a: usize, b: usize) -> bool
    ensures { Tells (Over h a b) result }
{
    a < h && b < h && h - a <= 2 && h - b <= 2 && (h - a) + (h - b) < 4
}

// Whether the links of slot s stay in the pool, and its height is the one over two sides that are even enough.
pub fn topped(links: &[usize], c: usize, s: usize) -> bool
    requires { Slot (length links.now) s × (length links.now ≡ 3 * c) }
    ensures { Tells (Tops links.now c s) result }
{
    let l = cells::slot::left_of(links, s);
    let r = cells::slot::right_of(links, s);
    if c < l || c < r {
        return false;
    }
    let h = cells::slot::height_of(links, s);
    over(
        h,
        cells::slot::height_of(links, l),
        cells::slot::height_of(links, r),
    )
}

// What hangs at slot s, where `left` entries may still be met: how many may be met after it, or none where it is wrong.
// Each entry met takes one from `left`, which no side gives back: shared, circular or lying, a pool has no more than n <= C of them met.
#[cycle(pass_side)]
pub fn pass(pool: &Pool<'_>, s: usize, cut: usize, left: usize, fence: &mut Fence) -> Option<usize>
    requires { Asked pool.now.shape cut fence.old.bounds × (Slot (length pool.now.links.now) s × Edged pool.now.shape.k pool.now.keys.now fence.old.bounds fence.old.edges) }
    ensures { Judged pool.now.shape.k pool.now.keys.now pool.now.links.now cut s left fence.old.bounds result × (fence.new ≡ fence.old) }
{
    if left == 0
        || !topped(pool.links, pool.shape.c, s)
        || !enclosed(pool.keys, pool.shape, s, fence)
    {
        return None;
    }
    let l = cells::slot::left_of(pool.links, s);
    let r = cells::slot::right_of(pool.links, s);
    if l + r == 0 {
        return Some(left - 1);
    }
    let next = cells::order::next_cut(pool.shape, cut);
    let x = cells::slot::number_at(pool.keys, pool.shape, s, cut);
    let rest = side(pool, l, next, left - 1, fence, 4 + cut, s, x)?;
    side(pool, r, next, rest, fence, cut, s, x)
}

// What hangs at s, which may be no slot, with `from` as the bound and its number as the edge at one place: set before, put back after.
#[cycle(pass_side)]
pub fn side(
    pool: &Pool<'_>,
    s: usize,
    cut: usize,
    left: usize,
    fence: &mut Fence,
    at: usize,
    from: usize,
    edge: i64,
) -> Option<usize>
    requires asked { Asked pool.now.shape cut fence.old.bounds × ((s ≤ pool.now.shape.c) × ((at < 8) × (from ≤ pool.now.shape.c))) }
    requires edged { Edged pool.now.shape.k pool.now.keys.now (set fence.old.bounds at from) (set fence.old.edges at edge) }
    ensures { Judged pool.now.shape.k pool.now.keys.now pool.now.links.now cut s left (set fence.old.bounds at from) result × (fence.new ≡ fence.old) }
{
    if s == 0 {
        return Some(left);
    }
    let (bound, was) = fence.put(at, from, edge);
    let rest = pass(pool, s, cut, left, fence);
    fence.put(at, bound, was);
    rest
}

// Whether the tree at the root is right and has n entries. Its height is at most 16 and heights fall: no deeper does the pass go.
pub fn tree_right(pool: &Pool<'_>, root: usize, n: usize) -> bool
    requires { (root ≤ pool.now.shape.c) × (n ≤ pool.now.shape.c) }
    ensures { Tells (Whole pool.now.shape.k pool.now.keys.now pool.now.links.now root n) result }
{
    if root == 0 {
        return n == 0;
    }
    if 16 < cells::slot::height_of(pool.links, root) {
        return false;
    }
    pass(pool, root, 0, n, &mut Fence::open()) == Some(0)
}
