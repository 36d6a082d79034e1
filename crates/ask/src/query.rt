// A note that is asked of a pool.
ghost use Rattle.std.specs.Prelude.{ℕ, ◌<◌, get_or};

use cells::pool::Pool;

// The note's numbers, and the step of each field: no step in use is 0.
#[derive(Clone, Copy)]
pub struct Query<'a> {
    pub pool: Pool<'a>,
    pub numbers: [i64; 4],
    pub steps: [u64; 4],
    pub ghost stepped: { (i : ℕ) → i < pool.shape.k → 0 < get_or steps i 0 },
}
