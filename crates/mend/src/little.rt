// A tree so little that its slots are read off the links.
ghost use Rattle.std.specs.Prelude.{[], ◌∷◌, length, IfSome};
ghost use Rattle.cells.specs.Slots.{Slot};
ghost use Rattle.mend.specs.Listings.{Lying, Listed};

use cells::slot::{height_of, left_of, right_of};
use rank::three::Three;

// Two slots in listing order.
#[derive(Clone, Copy)]
pub struct Two {
    pub low: usize,
    pub high: usize,
}

// The slots of the tree at s where it has just two.
pub fn two_at(links: &[usize], s: usize) -> Option<Two>
    requires { Lying links.now s }
    ensures { IfSome result (λ two. Listed links.now s (two.low ∷ two.high ∷ [])) }
{
    if height_of(links, s) != 2 {
        return None;
    }
    match (left_of(links, s), right_of(links, s)) {
        (0, r) => Some(Two { low: s, high: r }),
        (l, 0) => Some(Two { low: l, high: s }),
        _ => None,
    }
}

// The slots of the tree at s where it has three and its root one child.
pub fn three_at(links: &[usize], s: usize) -> Option<Three>
    requires { Slot (length links.now) s × Lying links.now s }
    ensures { IfSome result (λ three. Listed links.now s (three.low ∷ three.middle ∷ three.high ∷ [])) }
{
    match (left_of(links, s), right_of(links, s)) {
        (0, r) => {
            let two = two_at(links, r)?;
            Some(Three {
                low: s,
                middle: two.low,
                high: two.high,
            })
        }
        (l, 0) => {
            let two = two_at(links, l)?;
            Some(Three {
                low: two.low,
                middle: two.high,
                high: s,
            })
        }
        _ => None,
    }
}
