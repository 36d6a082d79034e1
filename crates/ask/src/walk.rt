// The walk of look-up through any memory of the right lengths.
ghost use Rattle.std.specs.Prelude.{◌≡◌, length, take};
ghost use Rattle.model.specs.Pool.{cell_of, read_limit, walk};
ghost use Rattle.cells.specs.Slots.{Room};
ghost use Rattle.ask.specs.Walks.{named};

use model::{Entry, Shape};
use std::cmp::Ordering;

// Where a walk ends: at the entry, with its slot; at no slot; or past the pool or the limit. The first two tell the entries met.
// A Result of an Option would name the same three less plainly.
#[derive(Clone, Copy)]
pub enum Walk {
    Found(usize, usize),
    Gone(usize),
    Astray,
}

// From the root down; trusts no root and no link, and reads at most sixteen entries. The cut field tells the way, the others only where it is alike.
// The documents name this call, so its parameters stay as they are.
pub fn walk_down(shape: Shape, root: usize, e: Entry, keys: &[i64], links: &[usize]) -> Walk
    requires { Room shape (length keys.now) (length links.now) }
    ensures { result ≡ named (walk read_limit (cell_of shape.k keys.now links.now) shape.c 0 (take shape.k e.f) 0 root) }
{
    let mut at = root;
    let mut cut = 0;
    let mut reads = 0;
    // It follows links, and no range or slice says where it ends.
    while at != 0 {
        if shape.c < at || reads == 16 {
            return Walk::Astray;
        }
        let l = cells::slot::left_of(links, at);
        let r = cells::slot::right_of(links, at);
        let x = e.f[cut];
        let y = cells::slot::number_at(keys, shape, at, cut);
        reads += 1;
        if x != y {
            at = cells::slot::either(y < x, l, r);
        } else {
            match cells::slot::compare_entry(e, keys, shape, at, cut) {
                Ordering::Equal => return Walk::Found(at, reads),
                Ordering::Less => at = l,
                Ordering::Greater => at = r,
            }
        }
        cut = cells::order::next_cut(shape, cut);
    }
    Walk::Gone(reads)
}
