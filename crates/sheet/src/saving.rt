// The text of a book written to lent room: measured first, so that room which is too short is left as it is.
ghost use Rattle.std.specs.Prelude.{◌≡◌, ◌∷◌, [], ◌++◌, ◌+◌, ◌≤◌, length};
ghost use Rattle.model.specs.Text.{pairs};
ghost use Rattle.cells.specs.Slots.{numbers_of};
ghost use Rattle.print.specs.Place.{written, Puts};
ghost use Rattle.ask.specs.Standing.{Standing};
ghost use Rattle.rank.specs.Ranking.{InTable, InTables};
ghost use Rattle.sheet.specs.Saving.{text_in, Measured, PrintedWith};

use cells::pool::Pool;
use model::Shape;
use rank::key::SuperKey;

// How many bytes the line of a slot has.
pub fn slot_length(keys: &[i64], shape: Shape, s: usize) -> usize
    requires { (shape.k ≤ 4) × InTable shape.k (length keys.now) s }
    ensures { result ≡ length (pairs 97 (numbers_of shape.k keys.now s)) + 1 }
{
    print::line_length(cells::slot::numbers(keys, shape, s))
}

// The line of a slot written from a place on; returns the place behind it.
pub fn put_slot(keys: &[i64], shape: Shape, s: usize, room: &mut [u8], at: usize) -> usize
    requires k_bound { (shape.k ≤ 4) × InTable shape.k (length keys.now) s }
    requires s_in_bounds { at + length (pairs 97 (numbers_of shape.k keys.now s) ++ (10 ∷ [])) ≤ length room.old }
    ensures { Puts room.old at (pairs 97 (numbers_of shape.k keys.now s) ++ (10 ∷ [])) room.new result }
{
    print::put_line(room, at, cells::slot::numbers(keys, shape, s))
}

// The length of the text of ranked slots, counted as long as it fits; none where it does not.
pub fn measure(keys: &[i64], shape: Shape, slots: &[usize], most: usize) -> Option<usize>
    requires { (shape.k ≤ 4) × InTables shape.k (length keys.now) slots.now }
    ensures { Measured (text_in shape.k keys.now slots.now) most result }
{
    let mut bytes = print::title_length(shape.k, slots.len());
    if most < bytes {
        return None;
    }
    for s in slots {
        let line = slot_length(keys, shape, *s);
        if most - bytes < line {
            return None;
        }
        bytes += line;
    }
    Some(bytes)
}

// The text of ranked slots.
pub fn write_text(keys: &[i64], shape: Shape, slots: &[usize], room: &mut [u8])
    requires k_bound { (shape.k ≤ 4) × InTables shape.k (length keys.now) slots.now }
    requires slots_in_bounds { length (text_in shape.k keys.now slots.now) ≤ length room.old }
    ensures { room.new ≡ written room.old 0 (text_in shape.k keys.now slots.now) }
{
    let mut to = print::put_title(room, 0, shape.k, slots.len());
    for s in slots {
        to = put_slot(keys, shape, *s, room, to);
    }
}

// Writes the text of the book to the room, where it fits, and tells its length; slots and spare are as long as the pool has slots.
pub fn print(
    pool: &Pool<'_>,
    root: usize,
    slots: &mut [usize],
    spare: &mut [usize],
    room: &mut [u8],
) -> Option<usize>
    requires slots_len { (length slots.old ≡ pool.now.shape.c) × (length spare.old ≡ pool.now.shape.c) }
    requires standing { Standing pool.now.shape.k pool.now.keys.now pool.now.links.now root 0 pool.now.shape.c }
    ensures { PrintedWith pool.now.shape.k pool.now.keys.now pool.now.links.now root room.old room.new result }
{
    let n = build::gather::gather(pool.links, root, slots, 0);
    let all = &mut slots[..n];
    let key = SuperKey {
        keys: pool.keys,
        shape: pool.shape,
        cut: 0,
    };
    key.rank(all, &mut spare[..n]);
    let bytes = measure(pool.keys, pool.shape, all, room.len())?;
    write_text(pool.keys, pool.shape, all, room);
    Some(bytes)
}
