// The items of a tray worked in turn, where none of them is wrong.
// The tables go apart, as they are lent: of one struct of `&mut` tables each contract would have to say that they are the same tables again.
ghost use Rattle.std.specs.Prelude.{◌≡◌, ◌+◌, ◌*◌, ◌≤◌, length};
ghost use Rattle.std.proofs.Math.Option.{none};
ghost use Rattle.mend.specs.Lists.{Blank, Kept};
ghost use Rattle.model.specs.Laws.{first_wrong_item, worked, worked_all, wrong_with};
ghost use Rattle.model.specs.Pool.{book_of};
ghost use Rattle.model.specs.Tray.{works};
ghost use Rattle.weigh.specs.Items.{work_of};
ghost use Rattle.weigh.specs.Sounds.{Sound};
ghost use Rattle.desk.specs.Changes.{Became};

use crate::change::{add_one, strike_one};
use mend::lists::Lists;
use model::Head;
use weigh::items::{adds, entry_in, item_at};

// Works item i, counted from 0, which is not wrong; returns the head.
pub fn work_one(
    head: Head,
    keys: &mut [i64],
    links: &mut [usize],
    lists: &mut Lists<'_>,
    items: &[i64],
    i: usize,
) -> Head
    requires sound { Sound head keys.old links.old × (i * (head.k + 1) + (head.k + 1) ≤ length items.now) }
    requires links_value { wrong_with head.c (work_of head.k items.now i) (book_of head keys.old links.old) ≡ none }
    requires lists { Blank head.c lists.old }
    ensures pool { Became head keys.new links.new (worked (work_of head.k items.now i) (book_of head keys.old links.old)) result }
    ensures lists { Kept head.c lists.old lists.new }
{
    let item = item_at(items, head.k, i);
    let e = entry_in(item);
    if adds(item) {
        add_one(head, keys, links, lists, e)
    } else {
        strike_one(head, keys, links, lists, e)
    }
}

// Works every item; returns the head.
pub fn work_all(
    head: Head,
    keys: &mut [i64],
    links: &mut [usize],
    lists: &mut Lists<'_>,
    items: &[i64],
) -> Head
    requires sound { Sound head keys.old links.old }
    requires links_value { first_wrong_item head.c 1 (works head.k items.now) (book_of head keys.old links.old) ≡ none }
    requires lists { Blank head.c lists.old }
    ensures pool { Became head keys.new links.new (worked_all (works head.k items.now) (book_of head keys.old links.old)) result }
    ensures lists { Kept head.c lists.old lists.new }
{
    let many = items.len() / (head.k + 1);
    let mut after = head;
    for i in 0..many {
        after = work_one(after, keys, links, lists, items, i);
    }
    after
}
