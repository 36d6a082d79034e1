// A box from C made the book's own.
ghost use Rattle.std.specs.Prelude.{◌≡◌};
ghost use Rattle.unit.specs.Face as face;

use crate::face::{Limit, Limits};
use model::Bound;

// The bound that a kind and two ends stand for.
impl From<Limit> for Bound {
    ghost from_gives = { λ limit bound. bound ≡ face.bound limit };

    fn from(limit: Limit) -> Bound {
        match limit.kind {
            0 => Bound::Free,
            1 => Bound::AtLeast(limit.low),
            2 => Bound::AtMost(limit.high),
            _ => Bound::Between(limit.low, limit.high),
        }
    }
}

pub fn bounds(limits: Limits) -> [Bound; 4]
    ensures { result ≡ face.bounds limits.of }
{
    limits.of.map(Bound::from)
}
