// One entry added or struck in a pool that is known to be sound, so that a call which changes many judges it once.
// The tables go apart, as they are lent: of one struct of `&mut` tables each contract would have to say that they are the same tables again.
ghost use Rattle.std.specs.Prelude.{◌≡◌, true, false, ◌<◌, length};
ghost use Rattle.mend.specs.Lists.{Blank, Kept};
ghost use Rattle.model.specs.Answer.{inward};
ghost use Rattle.model.specs.Ask.{has};
ghost use Rattle.model.specs.Book.{added, struck};
ghost use Rattle.model.specs.Pool.{book_of};
ghost use Rattle.model.specs.Rebuild.{listing};
ghost use Rattle.weigh.specs.Sounds.{Sound};
ghost use Rattle.desk.specs.Changes.{Became};

use mend::lists::Lists;
use model::{Entry, Head, Shape};

// Adds an entry that is not there to a pool that is not full; returns the head.
pub fn add_one(
    head: Head,
    keys: &mut [i64],
    links: &mut [usize],
    lists: &mut Lists<'_>,
    entry: Entry,
) -> Head
    requires sound { Sound head keys.old links.old × (head.n < head.c) }
    requires links_value { has (inward head.k entry) (listing (book_of head keys.old links.old).tree) ≡ false }
    requires lists { Blank head.c lists.old }
    ensures pool { Became head keys.new links.new (added (inward head.k entry) (book_of head keys.old links.old)) result }
    ensures lists { Kept head.c lists.old lists.new }
{
    let shape = Shape::from(head);
    let s = head.free;
    let free = cells::slot::claim(keys, links, shape, s, entry);
    let root = alter::insert::insert(keys, links, shape, 0, head.root, s, lists);
    Head {
        root,
        free,
        n: head.n + 1,
        ..head
    }
}

// Strikes an entry that is there; returns the head.
pub fn strike_one(
    head: Head,
    keys: &mut [i64],
    links: &mut [usize],
    lists: &mut Lists<'_>,
    entry: Entry,
) -> Head
    requires sound { Sound head keys.old links.old }
    requires links_value { has (inward head.k entry) (listing (book_of head keys.old links.old).tree) ≡ true }
    requires lists { Blank head.c lists.old }
    ensures pool { Became head keys.new links.new (struck (inward head.k entry) (book_of head keys.old links.old)) result }
    ensures lists { Kept head.c lists.old lists.new }
{
    let shape = Shape::from(head);
    let x = alter::strike::strike(keys, links, shape, 0, head.root, entry, lists);
    let freed = x.freed.unwrap();
    cells::slot::release(keys, links, shape, freed, head.free);
    Head {
        root: x.root,
        free: freed,
        n: head.n - 1,
        ..head
    }
}
