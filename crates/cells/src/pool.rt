// A pool in lent memory, as a call reads it.
ghost use Rattle.std.specs.Prelude.{length};
ghost use Rattle.cells.specs.Slots.{Room};

use model::Shape;

// Its shape, and its two tables, which are as long as the shape asks.
#[derive(Clone, Copy)]
pub struct Pool<'a> {
    pub shape: Shape,
    pub keys: &'a [i64],
    pub links: &'a [usize],
    pub ghost room: { Room shape (length keys.now) (length links.now) },
}
