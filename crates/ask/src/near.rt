// The nearest entry of a tree in lent memory.
ghost use Rattle.std.specs.Prelude.{ℕ, ◌≤◌, ◌<◌, length, take, get_or, None};
ghost use Rattle.cells.specs.Slots.{Keyed, Slot};
ghost use Rattle.ask.specs.Standing.{Standing};
ghost use Rattle.ask.specs.Nearest.{Pooled, Tabled, Bettered, Visited, Turned, Searched};

use crate::query::Query;
use cells::pool::Pool;
use model::{Entry, Shape};
use std::cmp::Ordering;

// The best so far: its slot and its distance.
#[derive(Clone, Copy)]
pub struct Best {
    pub slot: usize,
    pub distance: u64,
}

// The sides of an entry as the query sees them, and the least distance that anything on the far one can have.
#[derive(Clone, Copy)]
pub struct Turn {
    pub near: usize,
    pub far: usize,
    pub edge: u64,
}

// The nearer of the best so far, where there is one, and slot s at distance d; at a tie the first in listing order.
pub fn better(keys: &[i64], shape: Shape, best: Option<Best>, s: usize, d: u64) -> Best
    requires le_k { (1 ≤ shape.k) × ((shape.k ≤ 4) × (s ≤ 4096)) }
    requires keyed { Keyed shape.k (length keys.now) s × Tabled shape.k (length keys.now) best }
    ensures { Bettered shape.k keys.now best s d result }
{
    let here = Best {
        slot: s,
        distance: d,
    };
    let Some(b) = best else {
        return here;
    };
    if b.distance < d {
        return b;
    }
    if d < b.distance {
        return here;
    }
    match cells::slot::compare_slots(keys, shape, b.slot, s, 0) {
        Ordering::Greater => here,
        Ordering::Less | Ordering::Equal => b,
    }
}

// The best so far once the entry in slot s is seen.
pub fn visit(
    keys: &[i64],
    shape: Shape,
    s: usize,
    q: Entry,
    steps: [u64; 4],
    best: Option<Best>,
) -> Best
    requires le_k { (1 ≤ shape.k) × ((shape.k ≤ 4) × (s ≤ 4096)) }
    requires keyed { Keyed shape.k (length keys.now) s × Tabled shape.k (length keys.now) best }
    requires by_index { (i : ℕ) → i < shape.k → 0 < get_or steps i 0 }
    ensures { Visited shape.k keys.now steps (take shape.k q.f) best s result }
{
    let d = gauge::distance::distance_of(steps, q, cells::slot::numbers(keys, shape, s));
    better(keys, shape, best, s, d)
}

// Where the query lies as seen from the cut field of slot s.
pub fn turn_at(
    keys: &[i64],
    links: &[usize],
    shape: Shape,
    s: usize,
    cut: usize,
    q: Entry,
    steps: [u64; 4],
) -> Turn
    requires cut_lt_k { (cut < shape.k) × ((shape.k ≤ 4) × (s ≤ 4096)) }
    requires keyed { Keyed shape.k (length keys.now) s × Slot (length links.now) s }
    requires by_index { (i : ℕ) → i < shape.k → 0 < get_or steps i 0 }
    ensures { Turned shape.k keys.now links.now steps (take shape.k q.f) s cut result }
{
    let x = cells::slot::number_at(keys, shape, s, cut);
    let y = q.f[cut];
    let edge = gauge::distance::field_distance(steps[cut], y, x);
    let left = cells::slot::left_of(links, s);
    let right = cells::slot::right_of(links, s);
    if y < x {
        Turn {
            near: left,
            far: right,
            edge,
        }
    } else {
        Turn {
            near: right,
            far: left,
            edge,
        }
    }
}

// The best of what was found and the tree at s: the query's side first, the other while it can hold one as good.
pub fn nearest_in(query: &Query<'_>, s: usize, cut: usize, best: Option<Best>) -> Option<Best>
    requires here { (cut < query.now.pool.shape.k) × Pooled query.now.pool.shape.c best }
    requires standing { Standing query.now.pool.shape.k query.now.pool.keys.now query.now.pool.links.now s cut query.now.pool.shape.c }
    ensures { Searched query.now.pool.shape query.now.pool.keys.now query.now.pool.links.now query.now.steps (take query.now.pool.shape.k query.now.numbers) s cut best result }
{
    if s == 0 {
        return best;
    }
    let pool = &query.pool;
    let note = Entry { f: query.numbers };
    let here = visit(pool.keys, pool.shape, s, note, query.steps, best);
    let turn = turn_at(pool.keys, pool.links, pool.shape, s, cut, note, query.steps);
    let next = cells::order::next_cut(pool.shape, cut);
    let after = nearest_in(query, turn.near, next, Some(here));
    if after.is_some_and(|b| b.distance < turn.edge) {
        after
    } else {
        nearest_in(query, turn.far, next, after)
    }
}

// The best of the tree at a root, by steps that are not 0 where they are in use.
pub fn nearest(pool: &Pool<'_>, root: usize, note: Entry, steps: [u64; 4]) -> Option<Best>
    requires by_index { (i : ℕ) → i < pool.now.shape.k → 0 < get_or steps i 0 }
    requires standing { Standing pool.now.shape.k pool.now.keys.now pool.now.links.now root 0 pool.now.shape.c }
    ensures { Searched pool.now.shape pool.now.keys.now pool.now.links.now steps (take pool.now.shape.k note.f) root 0 None result }
{
    let numbers = note.f;
    let query = Query {
        pool: *pool,
        numbers,
        steps,
    };
    nearest_in(&query, root, 0, None)
}
