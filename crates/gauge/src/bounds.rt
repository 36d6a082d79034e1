// Whether a bound holds a number, and a box an entry.
ghost use Rattle.std.specs.Prelude.{◌≡◌};
ghost use Rattle.model.specs.Ask.{holds, in_box};

use model::Bound;

// Whether a bound holds a number, ends included.
#[tactic(auto, using(crate::proofs::Boxes::le_back), unfolding(model::specs::Ask::holds))]
pub fn within(b: Bound, x: i64) -> bool
    ensures { result ≡ holds b x }
{
    match b {
        Bound::Free => true,
        Bound::AtLeast(lo) => lo <= x,
        Bound::AtMost(hi) => x <= hi,
        Bound::Between(lo, hi) => lo <= x && x <= hi,
    }
}

// Whether the bounds hold the numbers of a part; bounds and numbers beyond the shorter of the two are ignored.
pub fn inside(bounds: [Bound; 4], part: &[i64]) -> bool
    ensures { result ≡ in_box bounds part.now }
{
    // in a closure of `all` it is not known that the number fits, and the proof does not close
    for (b, x) in bounds.iter().zip(part) {
        if !within(*b, *x) {
            return false;
        }
    }
    true
}
