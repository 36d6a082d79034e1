// A fresh pool: every number 0, and the slots chained 1, 2, .. C.
ghost use Rattle.std.specs.Prelude.{◌≡◌, ◌*◌, ◌≤◌, length, replicate, pos};
ghost use Rattle.desk.specs.Fresh.{Chained};

// Every number 0.
pub fn clear_numbers(keys: &mut [i64])
    ensures { keys.new ≡ replicate (length keys.old) (pos 0) }
{
    keys.fill(0);
}

// Slot s leads to s + 1, and the last one to none.
pub fn chain_up(links: &mut [usize], c: usize)
    requires { (1 ≤ c) × ((c ≤ 4096) × (length links.old ≡ 3 * c)) }
    ensures { (length links.new ≡ 3 * c) × Chained links.new c c }
{
    for before in 0..c {
        let s = before + 1;
        let next = if s == c { 0 } else { s + 1 };
        cells::slot::put_links(links, s, next, 0, 0);
    }
}
