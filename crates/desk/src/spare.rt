// The list of slots that a call needs beside what it is lent.
// The tables go apart, as they are lent: of one struct of `&mut` tables each contract would have to say that they are the same tables again.
ghost use Rattle.std.specs.Prelude.{◌≡◌, true, false, ◌+◌, ◌≤◌, ◌<◌, length, replicate};
ghost use Rattle.std.proofs.Math.Option.{none};
ghost use Rattle.model.specs.Answer.{inward};
ghost use Rattle.model.specs.Ask.{has, new_of};
ghost use Rattle.model.specs.Book.{added, struck};
ghost use Rattle.model.specs.Calls.{added_all, entries_in};
ghost use Rattle.model.specs.Laws.{first_wrong_item, worked_all};
ghost use Rattle.model.specs.Pool.{book_of};
ghost use Rattle.model.specs.Rebuild.{listing};
ghost use Rattle.model.specs.Text.{parse};
ghost use Rattle.model.specs.Tray.{works};
ghost use Rattle.weigh.specs.Saved.{Saves};
ghost use Rattle.weigh.specs.Sounds.{Sound};
ghost use Rattle.desk.specs.Changes.{Became};

use crate::change::{add_one, strike_one};
use crate::taking::put_all;
use crate::working::work_all;
use mend::lists::Lists;
use model::{Entry, Head};
use weigh::with_lists;

// Adds an entry that is not there to a pool that is not full; returns the head.
pub fn add(
    head: Head,
    keys: &mut [i64],
    links: &mut [usize],
    scratch: &mut [usize],
    entry: Entry,
) -> Head
    requires sound { Sound head keys.old links.old × (head.n < head.c) }
    requires links_value { has (inward head.k entry) (listing (book_of head keys.old links.old).tree) ≡ false }
    requires scratch_value { scratch.old ≡ replicate head.c 0 }
    ensures pool { Became head keys.new links.new (added (inward head.k entry) (book_of head keys.old links.old)) result }
    ensures scratch { scratch.new ≡ replicate head.c 0 }
{
    with_lists!(head.c; spare; add_one(head, keys, links, &mut Lists { scratch, spare }, entry))
}

// Strikes an entry that is there; returns the head.
pub fn strike(
    head: Head,
    keys: &mut [i64],
    links: &mut [usize],
    scratch: &mut [usize],
    entry: Entry,
) -> Head
    requires sound { Sound head keys.old links.old }
    requires links_value { has (inward head.k entry) (listing (book_of head keys.old links.old).tree) ≡ true }
    requires scratch_value { scratch.old ≡ replicate head.c 0 }
    ensures pool { Became head keys.new links.new (struck (inward head.k entry) (book_of head keys.old links.old)) result }
    ensures scratch { scratch.new ≡ replicate head.c 0 }
{
    with_lists!(head.c; spare; strike_one(head, keys, links, &mut Lists { scratch, spare }, entry))
}

// Adds, in text order, what is not yet there; returns the head.
pub fn take_in(
    head: Head,
    keys: &mut [i64],
    links: &mut [usize],
    scratch: &mut [usize],
    text: &[u8],
    lines: usize,
) -> Head
    requires sound { Sound head keys.old links.old × Saves text.now head.k lines }
    requires text_bound { head.n + length (new_of (listing (book_of head keys.old links.old).tree) (entries_in (parse text.now))) ≤ head.c }
    requires scratch_value { scratch.old ≡ replicate head.c 0 }
    ensures pool { Became head keys.new links.new (added_all (new_of (listing (book_of head keys.old links.old).tree) (entries_in (parse text.now))) (book_of head keys.old links.old)) result }
    ensures scratch { scratch.new ≡ replicate head.c 0 }
{
    with_lists!(head.c; spare; put_all(head, keys, links, &mut Lists { scratch, spare }, text, lines))
}

// Works every item of a tray, where none is wrong; returns the head.
pub fn work(
    head: Head,
    keys: &mut [i64],
    links: &mut [usize],
    scratch: &mut [usize],
    items: &[i64],
) -> Head
    requires sound { Sound head keys.old links.old }
    requires links_value { first_wrong_item head.c 1 (works head.k items.now) (book_of head keys.old links.old) ≡ none }
    requires scratch_value { scratch.old ≡ replicate head.c 0 }
    ensures pool { Became head keys.new links.new (worked_all (works head.k items.now) (book_of head keys.old links.old)) result }
    ensures scratch { scratch.new ≡ replicate head.c 0 }
{
    with_lists!(head.c; spare; work_all(head, keys, links, &mut Lists { scratch, spare }, items))
}
