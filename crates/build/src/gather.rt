// The slots of a tree as a list in lent memory.
ghost use Rattle.std.specs.Prelude.{◌-◌, ◌≤◌, length};
ghost use Rattle.build.specs.Rebuilding.{Fitting, Gathered};

use cells::slot::{left_of, right_of};

// Stores the slots of the tree at s from `at` on, in order, and returns the place behind them.
// A place and no sub-slice: it is one running index, where counts of sub-slices would be added up at every node.
pub fn gather(links: &[usize], s: usize, slots: &mut [usize], at: usize) -> usize
    requires at_in_bounds { at ≤ length slots.old }
    requires fitting { Fitting links.now s (length slots.old - at) }
    ensures { Gathered links.now slots.old slots.new s at result }
{
    if s == 0 {
        at
    } else {
        let l = left_of(links, s);
        let m = gather(links, l, slots, at);
        slots[m] = s;
        let r = right_of(links, s);
        gather(links, r, slots, m + 1)
    }
}
