// A pool that is known to be sound: how many slots it may have, and whether an entry is there.
ghost use Rattle.std.specs.Prelude.{◌≡◌};
ghost use Rattle.model.specs.Answer.{inward};
ghost use Rattle.model.specs.Ask.{has};
ghost use Rattle.weigh.specs.Books.{entries_held};

use crate::known::Known;
use ask::walk::Walk;
use model::{Entry, Shape};

// The slots of a small pool, and of any.
pub const FEW: usize = 256;

pub const MOST: usize = 4096;

// Work over lists as long as a pool has slots: short ones for a small pool, since clearing long ones would be most of its work.
// A macro and no function over a closure: what a closure writes to what it borrowed is not known to its caller, and the proofs did not close.
#[macro_export]
macro_rules! with_lists {
    ($c:expr; $($list:ident),+; $work:expr) => {
        if $c <= $crate::pool::FEW {
            $(let mut $list = [0usize; $crate::pool::FEW];)+
            $(let $list = &mut $list[..$c];)+
            $work
        } else {
            $(let mut $list = [0usize; $crate::pool::MOST];)+
            $(let $list = &mut $list[..$c];)+
            $work
        }
    };
}

// Whether the entry is there.
pub fn is_there(known: &Known<'_>, entry: Entry) -> bool
    ensures { result ≡ has (inward known.now.head.k entry) (entries_held known.now) }
{
    let head = known.head;
    let end = ask::walk::walk_down(Shape::from(head), head.root, entry, known.keys, known.links);
    matches!(end, Walk::Found(..))
}
