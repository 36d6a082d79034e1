// The entries of a box written to lent room in listing order, K numbers each.
ghost use Rattle.std.specs.Prelude.{◌≡◌, ◌*◌, ◌≤◌, length};
ghost use Rattle.std.proofs.lemmas.List.Edits.{sets};
ghost use Rattle.ask.specs.Standing.{Standing};
ghost use Rattle.rank.specs.Ranking.{InTables};
ghost use Rattle.sheet.specs.Listing.{numbers_in, FilledWith};

use cells::pool::Pool;
use model::{Bound, Shape};
use rank::key::SuperKey;

// So many entries that the room does not hold them.
#[derive(Clone, Copy)]
pub struct TooMany {
    pub count: usize,
}

// The room is laid out as a key table is, so an entry is put into its place as into a slot.
pub fn write_entries(keys: &[i64], shape: Shape, slots: &[usize], room: &mut [i64])
    requires k_bound { (shape.k ≤ 4) × ((length slots.now ≤ 4096) × (shape.k * length slots.now ≤ length room.old)) }
    requires in_tables { InTables shape.k (length keys.now) slots.now }
    ensures { room.new ≡ sets room.old 0 (numbers_in shape.k keys.now slots.now) }
{
    for (i, s) in slots.iter().enumerate() {
        let e = cells::slot::entry_at(keys, shape, *s);
        cells::slot::put_entry(room, shape, i + 1, e);
    }
}

// Writes the entries of the box in listing order to the room, where they fit; slots and spare are as long as the pool has slots.
pub fn fill(
    pool: &Pool<'_>,
    root: usize,
    bounds: [Bound; 4],
    slots: &mut [usize],
    spare: &mut [usize],
    room: &mut [i64],
) -> Result<usize, TooMany>
    requires slots_len { (length slots.old ≡ pool.now.shape.c) × (length spare.old ≡ pool.now.shape.c) }
    requires standing { Standing pool.now.shape.k pool.now.keys.now pool.now.links.now root 0 pool.now.shape.c }
    ensures { FilledWith pool.now.shape.k pool.now.keys.now pool.now.links.now root bounds room.old room.new result }
{
    let n = ask::boxes::collect(pool, root, 0, bounds, slots, 0);
    if room.len() < pool.shape.k * n {
        return Err(TooMany { count: n });
    }
    let boxed = &mut slots[..n];
    let key = SuperKey {
        keys: pool.keys,
        shape: pool.shape,
        cut: 0,
    };
    key.rank(boxed, &mut spare[..n]);
    write_entries(pool.keys, pool.shape, boxed, room);
    Ok(n)
}
