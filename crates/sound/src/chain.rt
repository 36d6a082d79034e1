// Whether the free slots of a pool are right: a chain through left, each slot cleared, that ends at 0 after as many as it should.
ghost use Rattle.std.specs.Prelude.{◌≡◌, length};
ghost use Rattle.model.specs.Pool.{zeros};
ghost use Rattle.cells.specs.Slots.{Slot};
ghost use Rattle.sound.specs.Parts.{Tells};
ghost use Rattle.sound.specs.Chain.{cleared, Free};

use cells::pool::Pool;

// Whether all numbers of a part are 0.
#[tactic(auto, using(crate::proofs::Walk::zeros_all, crate::proofs::Walk::zeros_not))]
pub fn all_zero(part: &[i64]) -> bool
    ensures { result ≡ zeros part.now }
{
    // in a closure of `all` it is not known that the number fits, and the proof does not close
    for x in part {
        if *x != 0 {
            return false;
        }
    }
    true
}

// Whether right, height and numbers of slot s are 0.
pub fn is_cleared(pool: &Pool<'_>, s: usize) -> bool
    requires { Slot (length pool.now.links.now) s }
    ensures { result ≡ cleared pool.now.shape.k pool.now.keys.now pool.now.links.now s }
{
    cells::slot::right_of(pool.links, s) == 0
        && cells::slot::height_of(pool.links, s) == 0
        && all_zero(cells::slot::numbers(pool.keys, pool.shape, s))
}

// Whether n cleared slots hang from `free` on, and no more.
pub fn chain_right(pool: &Pool<'_>, free: usize, n: usize) -> bool
    ensures { Tells (Free pool.now.shape.k pool.now.shape.c pool.now.keys.now pool.now.links.now free n) result }
{
    let mut s = free;
    for _ in 0..n {
        if s == 0 || pool.shape.c < s || !is_cleared(pool, s) {
            return false;
        }
        s = cells::slot::left_of(pool.links, s);
    }
    s == 0
}
