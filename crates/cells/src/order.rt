// The one comparison: two entries, as parts of K numbers, under the super key that begins at a cut field.
ghost use Rattle.std.specs.Prelude.{◌≡◌, true, false, ◌<◌, ◌≤◌, length};
ghost use Rattle.model.specs.Entry.{lex};
ghost use Rattle.cells.specs.Orders.{named, Compared, Deeper};

use model::Shape;
use std::cmp::Ordering;

// By the first field that differs.
#[tactic(auto, using(crate::proofs::Orders::lists_told))]
pub fn in_order(a: &[i64], b: &[i64]) -> Ordering
    ensures { result ≡ named (lex a.now b.now) }
{
    a.cmp(&b)
}

// From the cut field on, then the fields in front of it.
pub fn compare(a: &[i64], b: &[i64], cut: usize) -> Ordering
    requires { (cut < length a.now) × (length a.now ≡ length b.now) }
    ensures { Compared a.now b.now cut result }
{
    in_order(&a[cut..], &b[cut..]).then_with(|| in_order(&a[..cut], &b[..cut]))
}

// The cut field one level deeper.
pub fn next_cut(shape: Shape, cut: usize) -> usize
    requires { cut < shape.k }
    ensures { Deeper shape.k cut result }
{
    let next = cut + 1;
    if next == shape.k { 0 } else { next }
}
