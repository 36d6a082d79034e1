// The one gate: refusals 1 to 3 from the sizes, then 12 from the items of a tray, then 4 from the pool.
ghost use Rattle.std.specs.Prelude.{◌≡◌, length};
ghost use Rattle.model.specs.Answer.{gate};
ghost use Rattle.model.specs.Gate.{rows3};
ghost use Rattle.model.specs.Pool.{sound};
ghost use Rattle.cells.specs.Slots.{Room};
ghost use Rattle.sound.specs.Parts.{shape_of};
ghost use Rattle.reply.specs.Gates.{told, fitting, judged, pooled, handed};

use model::{Head, Refusal};

// Rows 1 to 3 of the table; a call that is lent no scratch gives its capacity for that length, so that one gate serves all.
pub fn sizes(k: usize, c: usize, keys: usize, links: usize, scratch: usize) -> Result<(), Refusal>
    ensures { result ≡ told (gate (rows3 k c (fitting k c keys links scratch))) }
{
    if k < 1 || 4 < k {
        return Err(Refusal::Fields);
    }
    if c < 1 || 4096 < c {
        return Err(Refusal::Capacity);
    }
    if keys != k * c || links != 3 * c || scratch != c {
        return Err(Refusal::Lengths);
    }
    Ok(())
}

// Row 4, where the sizes are right.
fn judge(head: Head, keys: &[i64], links: &[usize]) -> Result<(), Refusal>
    requires { Room (shape_of head) (length keys.now) (length links.now) }
    ensures { result ≡ told (gate (judged head keys.now links.now)) }
{
    if sound::is_sound(head, keys, links) {
        Ok(())
    } else {
        Err(Refusal::Unsound)
    }
}

// Rows 1 to 4: where the sizes are right the pool is judged.
pub fn pool(head: Head, keys: &[i64], links: &[usize], scratch: usize) -> Result<(), Refusal>
    ensures { result ≡ told (gate (pooled head keys.now links.now scratch)) }
{
    sizes(head.k, head.c, keys.len(), links.len(), scratch)?;
    judge(head, keys, links)
}

// Rows 1 to 3, 12 and 4: where the sizes are right the items are looked through, and then the pool is judged.
pub fn tray(
    head: Head,
    keys: &[i64],
    links: &[usize],
    scratch: usize,
    items: &[i64],
) -> Result<(), Refusal>
    ensures { result ≡ told (gate (handed head keys.now links.now scratch items.now)) }
{
    sizes(head.k, head.c, keys.len(), links.len(), scratch)?;
    if !weigh::items::trayed(items, head.k) {
        return Err(Refusal::Tray);
    }
    judge(head, keys, links)
}
