// The entries of a text that is known to be a saved book, each added where it is not yet there.
// The tables go apart, as they are lent: of one struct of `&mut` tables each contract would have to say that they are the same tables again.
ghost use Rattle.std.specs.Prelude.{◌≡◌, false, ◌∷◌, [], ◌+◌, ◌≤◌, ◌<◌, length};
ghost use Rattle.mend.specs.Lists.{Blank, Kept};
ghost use Rattle.model.specs.Answer.{inward};
ghost use Rattle.model.specs.Ask.{has, new_of};
ghost use Rattle.model.specs.Calls.{added_all, entries_in};
ghost use Rattle.model.specs.Laws.{added_each};
ghost use Rattle.model.specs.Pool.{book_of};
ghost use Rattle.model.specs.Rebuild.{listing};
ghost use Rattle.model.specs.Text.{parse};
ghost use Rattle.weigh.specs.Saved.{Saves};
ghost use Rattle.weigh.specs.Sounds.{Sound};
ghost use Rattle.desk.specs.Changes.{Became};

use crate::change::add_one;
use mend::lists::Lists;
use model::{Entry, Head};
use weigh::known::Known;
use weigh::pool::is_there;

// Sees to it that an entry is there; returns the head.
pub fn put_in(
    head: Head,
    keys: &mut [i64],
    links: &mut [usize],
    lists: &mut Lists<'_>,
    entry: Entry,
) -> Head
    requires sound { Sound head keys.old links.old }
    requires n_lt_c { has (inward head.k entry) (listing (book_of head keys.old links.old).tree) ≡ false → head.n < head.c }
    requires lists { Blank head.c lists.old }
    ensures pool { Became head keys.new links.new (added_each (inward head.k entry ∷ []) (book_of head keys.old links.old)) result }
    ensures lists { Kept head.c lists.old lists.new }
{
    if is_there(&Known { head, keys, links }, entry) {
        return head;
    }
    add_one(head, keys, links, lists, entry)
}

// Adds, in text order, what is not yet there; returns the head.
pub fn put_all(
    head: Head,
    keys: &mut [i64],
    links: &mut [usize],
    lists: &mut Lists<'_>,
    text: &[u8],
    lines: usize,
) -> Head
    requires sound { Sound head keys.old links.old × Saves text.now head.k lines }
    requires text_bound { head.n + length (new_of (listing (book_of head keys.old links.old).tree) (entries_in (parse text.now))) ≤ head.c }
    requires lists { Blank head.c lists.old }
    ensures pool { Became head keys.new links.new (added_all (new_of (listing (book_of head keys.old links.old).tree) (entries_in (parse text.now))) (book_of head keys.old links.old)) result }
    ensures lists { Kept head.c lists.old lists.new }
{
    let mut after = head;
    let mut rest = text::first_entry(text);
    for _ in 0..lines {
        let (entry, behind) = text::read_entry(rest, head.k);
        after = put_in(after, keys, links, lists, entry);
        rest = behind;
    }
    after
}
