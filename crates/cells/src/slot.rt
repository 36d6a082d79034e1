// One slot of lent memory: reading and writing its links and its numbers, and comparing it.
ghost use Rattle.std.specs.Prelude.{◌≡◌, cond, ◌*◌, ◌≤◌, ◌<◌, length, get_or, take, pos};
ghost use Rattle.model.specs.Answer.{outward};
ghost use Rattle.cells.specs.Slots.{left_at, right_at, tall, address_of, numbers_of, Slot, Keyed, SlotsCompared, EntryCompared};
ghost use Rattle.cells.specs.Memory.{Put, Wrote, Released, Claimed};

use model::{Entry, Shape};
use std::cmp::Ordering;

// The left link of slot s. The right one has a function of its own: a side as a parameter is no plainer where the caller names it.
#[tactic(auto, unfolding(crate::specs::Slots::left_at))]
pub fn left_of(links: &[usize], s: usize) -> usize
    requires { Slot (length links.now) s }
    ensures { result ≡ left_at links.now s }
{
    links[3 * (s - 1)]
}

// The right link of slot s.
#[tactic(auto, unfolding(crate::specs::Slots::right_at))]
pub fn right_of(links: &[usize], s: usize) -> usize
    requires { Slot (length links.now) s }
    ensures { result ≡ right_at links.now s }
{
    links[3 * (s - 1) + 1]
}

// One of two slots, picked and not branched to: which side a walk takes is nothing that a machine could guess.
pub fn either(right: bool, l: usize, r: usize) -> usize
    ensures { result ≡ cond right r l }
{
    if right { r } else { l }
}

// The height of what hangs at s; 0 is no slot.
#[tactic(auto, unfolding(crate::specs::Slots::tall, crate::specs::Slots::height_at))]
pub fn height_of(links: &[usize], s: usize) -> usize
    requires { 3 * s ≤ length links.now }
    ensures { result ≡ tall links.now s }
{
    if s == 0 { 0 } else { links[3 * (s - 1) + 2] }
}

// Writes the three links of a slot.
pub fn put_links(links: &mut [usize], s: usize, l: usize, r: usize, h: usize)
    requires { Slot (length links.old) s }
    ensures { Put links.old links.new s l r h }
{
    let at = 3 * (s - 1);
    links[at] = l;
    links[at + 1] = r;
    links[at + 2] = h;
}

// Where the numbers of slot s begin.
#[tactic(auto, unfolding(crate::specs::Slots::address_of))]
pub fn address(shape: Shape, s: usize) -> usize
    requires { (1 ≤ s) × ((shape.k ≤ 4) × (s ≤ 4096)) }
    ensures { result ≡ address_of shape.k s }
{
    shape.k * (s - 1)
}

// The numbers of slot s, as their part of the key table.
pub fn numbers(keys: &[i64], shape: Shape, s: usize) -> &[i64]
    requires { (shape.k ≤ 4) × ((s ≤ 4096) × Keyed shape.k (length keys.now) s) }
    ensures are { result.now ≡ numbers_of shape.k keys.now s }
    ensures long { length result.now ≡ shape.k }
{
    let at = address(shape, s);
    &keys[at..at + shape.k]
}

// One number of a slot.
pub fn number_at(keys: &[i64], shape: Shape, s: usize, field: usize) -> i64
    requires { (field < shape.k) × ((shape.k ≤ 4) × ((s ≤ 4096) × Keyed shape.k (length keys.now) s)) }
    ensures { result ≡ get_or (numbers_of shape.k keys.now s) field (pos 0) }
{
    numbers(keys, shape, s)[field]
}

// Two slots, each as its part of the key table.
pub fn compare_slots(keys: &[i64], shape: Shape, a: usize, b: usize, cut: usize) -> Ordering
    requires cut_lt_k { (cut < shape.k) × ((shape.k ≤ 4) × ((a ≤ 4096) × (b ≤ 4096))) }
    requires keyed { Keyed shape.k (length keys.now) a × Keyed shape.k (length keys.now) b }
    ensures { SlotsCompared shape.k keys.now a b cut result }
{
    crate::order::compare(numbers(keys, shape, a), numbers(keys, shape, b), cut)
}

// An entry's first K numbers against a slot.
pub fn compare_entry(e: Entry, keys: &[i64], shape: Shape, s: usize, cut: usize) -> Ordering
    requires cut_lt_k { (cut < shape.k) × ((shape.k ≤ 4) × (s ≤ 4096)) }
    requires keyed { Keyed shape.k (length keys.now) s }
    ensures { EntryCompared shape.k e.f keys.now s cut result }
{
    crate::order::compare(&e.f[..shape.k], numbers(keys, shape, s), cut)
}

// The entry whose numbers are a part, 0 beyond them.
pub fn entry_of(part: &[i64]) -> Entry
    requires { length part.now ≤ 4 }
    ensures { result ≡ outward part.now }
{
    let mut f = [0i64; 4];
    f[..part.len()].copy_from_slice(part);
    Entry { f }
}

// The entry in a slot.
pub fn entry_at(keys: &[i64], shape: Shape, s: usize) -> Entry
    requires { (shape.k ≤ 4) × ((s ≤ 4096) × Keyed shape.k (length keys.now) s) }
    ensures { result ≡ outward (numbers_of shape.k keys.now s) }
{
    entry_of(numbers(keys, shape, s))
}

// Writes an entry's first K numbers into a slot.
pub fn put_entry(keys: &mut [i64], shape: Shape, s: usize, e: Entry)
    requires { (shape.k ≤ 4) × ((s ≤ 4096) × Keyed shape.k (length keys.old) s) }
    ensures { Wrote shape.k keys.old keys.new s (take shape.k e.f) }
{
    let at = address(shape, s);
    keys[at..at + shape.k].copy_from_slice(&e.f[..shape.k]);
}

// Takes a slot from the front of the chain for an entry, as a leaf; gives the slot that was behind it.
pub fn claim(keys: &mut [i64], links: &mut [usize], shape: Shape, s: usize, e: Entry) -> usize
    requires { (shape.k ≤ 4) × ((s ≤ 4096) × (Keyed shape.k (length keys.old) s × Slot (length links.old) s)) }
    ensures { Claimed shape.k keys.old keys.new links.old links.new s (take shape.k e.f) result }
{
    let behind = left_of(links, s);
    put_entry(keys, shape, s, e);
    put_links(links, s, 0, 0, 1);
    behind
}

// Gives a slot back: cleared, and chained in front of the first free slot.
#[tactic(auto, using(crate::proofs::Writes::released))]
pub fn release(keys: &mut [i64], links: &mut [usize], shape: Shape, s: usize, free: usize)
    requires { (shape.k ≤ 4) × ((s ≤ 4096) × (Keyed shape.k (length keys.old) s × Slot (length links.old) s)) }
    ensures { Released shape.k keys.old keys.new links.old links.new s free }
{
    put_entry(keys, shape, s, Entry { f: [0i64; 4] });
    put_links(links, s, free, 0, 0);
}
