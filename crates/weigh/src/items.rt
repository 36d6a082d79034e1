// The items of a tray, each K+1 numbers: what the first of them says, and the entry behind it.
ghost use Rattle.std.specs.Prelude.{◌≡◌, ◌↔◌, ◌||◌, ◌+◌, ◌*◌, ◌≤◌, ◌<◌, length, drop, IsTrue};
ghost use Rattle.model.specs.Answer.{outward};
ghost use Rattle.model.specs.Tray as trays;
ghost use Rattle.weigh.specs.Items.{item_of};

use model::Entry;

// Item i of a tray, counted from 0.
pub fn item_at(items: &[i64], k: usize, i: usize) -> &[i64]
    requires { i * (k + 1) + (k + 1) ≤ length items.now }
    ensures { result.now ≡ item_of k items.now i }
{
    let a = i * (k + 1);
    &items[a..a + (k + 1)]
}

// Whether an item adds; else it strikes.
pub fn adds(item: &[i64]) -> bool
    ensures { result ≡ trays.begins 1 item.now }
{
    item.first() == Some(&1)
}

// Whether an item begins with 1 or 2.
pub fn begun(item: &[i64]) -> bool
    ensures { result ≡ (trays.begins 1 item.now || trays.begins 2 item.now) }
{
    adds(item) || item.first() == Some(&2)
}

// Whether two items have the same entry; where they do not, the first field mostly tells.
pub fn alike(a: &[i64], b: &[i64]) -> bool
    requires { (1 ≤ length a.now) × (1 ≤ length b.now) }
    ensures { IsTrue result ↔ (drop 1 a.now ≡ drop 1 b.now) }
{
    if a.len() != b.len() {
        return false;
    }
    // a loop, since two slices' `==` is a call, and a tray asks for each pair of its items
    for (x, y) in a[1..].iter().zip(&b[1..]) {
        if x != y {
            return false;
        }
    }
    true
}

// The entry of an item.
pub fn entry_in(item: &[i64]) -> Entry
    requires { (1 ≤ length item.now) × (length item.now ≤ 5) }
    ensures { result ≡ outward (drop 1 item.now) }
{
    cells::slot::entry_of(&item[1..])
}

// Whether the numbers are at most 256 items, whole ones, that begin with 1 or 2.
pub fn trayed(items: &[i64], k: usize) -> bool
    requires { k ≤ 4 }
    ensures { result ≡ trays.trayed k items.now }
{
    let many = items.len() / (k + 1);
    if 256 < many || items.len() % (k + 1) != 0 {
        return false;
    }
    for i in 0..many {
        if !begun(item_at(items, k, i)) {
            return false;
        }
    }
    true
}
