// The items of a tray judged before any is worked: the first that is wrong in the book as the items before it leave it.
ghost use Rattle.std.specs.Prelude.{◌≡◌, ◌+◌, ◌*◌, ◌≤◌, length};
ghost use Rattle.model.specs.Ask.{has};
ghost use Rattle.model.specs.Laws.{first_wrong_item};
ghost use Rattle.model.specs.Tray.{works};
ghost use Rattle.weigh.specs.Books.{book_in, entries_held};
ghost use Rattle.weigh.specs.Items.{entry_at, is_there_by};
ghost use Rattle.weigh.specs.Judging.{verdict_on, first_of};

use crate::items::{adds, alike, entry_in, item_at};
use crate::known::Known;
use crate::pool::is_there;
use model::Refusal;

// Whether the entry of item i is there by then: the last item before it with the same entry tells, where there is none the pool.
pub fn there_by(known: &Known<'_>, items: &[i64], i: usize) -> bool
    requires { i * (known.now.head.k + 1) + (known.now.head.k + 1) ≤ length items.now }
    ensures { result ≡ is_there_by known.now.head.k items.now (entry_at known.now.head.k items.now i) (has (entry_at known.now.head.k items.now i) (entries_held known.now)) i }
{
    let k = known.head.k;
    let item = item_at(items, k, i);
    for j in (0..i).rev() {
        let before = item_at(items, k, j);
        if alike(item, before) {
            return adds(before);
        }
    }
    is_there(known, entry_in(item))
}

// An add of what is there or without a free slot, a strike of what is not there.
pub fn judge(add: bool, there: bool, n: usize, c: usize) -> Result<(), Refusal>
    ensures { result ≡ verdict_on add there n c }
{
    match (add, there) {
        (true, true) => Err(Refusal::Present),
        (true, false) if n == c => Err(Refusal::Full),
        (false, false) => Err(Refusal::Missing),
        (true, false) | (false, true) => Ok(()),
    }
}

// The place, from 1, and the refusal of the first wrong item of a tray.
pub fn first_wrong(known: &Known<'_>, items: &[i64]) -> Option<(usize, Refusal)>
    ensures { result ≡ first_of (first_wrong_item known.now.head.c 1 (works known.now.head.k items.now) (book_in known.now)) }
{
    let k = known.head.k;
    let many = items.len() / (k + 1);
    let mut n = known.head.n;
    for i in 0..many {
        let there = there_by(known, items, i);
        let add = adds(item_at(items, k, i));
        if let Err(why) = judge(add, there, n, known.head.c) {
            return Some((i + 1, why));
        }
        n = if add { n + 1 } else { n - 1 };
    }
    None
}
