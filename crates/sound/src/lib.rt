// Whether a pool is sound: one pass over its tree, one walk along its free chain, and no memory but eight bounds and their edges.
#![tactic(auto)]

pub mod chain;
pub mod tree;

ghost use Rattle.std.specs.Prelude.{◌≡◌, length};
ghost use Rattle.model.specs.Pool.{sound};
ghost use Rattle.cells.specs.Slots.{Room};
ghost use Rattle.sound.specs.Parts.{shape_of};

use cells::pool::Pool;
use model::{Head, Shape};

// Whether a pool whose tables are as long as its head asks is sound.
pub fn is_sound(head: Head, keys: &[i64], links: &[usize]) -> bool
    requires { Room (shape_of head) (length keys.now) (length links.now) }
    ensures { result ≡ sound head keys.now links.now }
{
    if head.c < head.root || head.c < head.free || head.c < head.n {
        return false;
    }
    let pool = Pool {
        shape: Shape::from(head),
        keys,
        links,
    };
    crate::tree::tree_right(&pool, head.root, head.n)
        && crate::chain::chain_right(&pool, head.free, head.c - head.n)
}
