// A subtree of a few slots, linked directly.
// The tables go apart, as they are lent: of one struct of `&mut` tables each contract would have to say that they are the same tables again.
ghost use Rattle.std.specs.Prelude.{[], ◌∷◌, ◌≤◌, length};
ghost use Rattle.cells.specs.Slots.{Room};
ghost use Rattle.build.specs.Rebuilding.{Chosen, Rebuilt};

use cells::slot::{either, put_links};
use rank::key::SuperKey;

// Two slots rebuilt: the higher is the root, the lower its left child.
pub fn rebuild_two(key: &SuperKey<'_>, links: &mut [usize], a: usize, b: usize) -> usize
    requires room { Room key.now.shape (length key.now.keys.now) (length links.old) }
    requires chosen { Chosen key.now.shape.c (a ∷ b ∷ []) }
    ensures { Rebuilt key.now.shape.k key.now.keys.now key.now.cut links.old links.new (a ∷ b ∷ []) result }
{
    let turned = key.behind(a, b);
    let low = either(turned, a, b);
    let high = either(turned, b, a);
    put_links(links, low, 0, 0, 1);
    put_links(links, high, low, 0, 2);
    high
}

// Three slots rebuilt: two leaves under the middle one.
pub fn rebuild_three(key: &SuperKey<'_>, links: &mut [usize], a: usize, b: usize, c: usize) -> usize
    requires room { Room key.now.shape (length key.now.keys.now) (length links.old) }
    requires chosen { Chosen key.now.shape.c (a ∷ b ∷ c ∷ []) }
    ensures { Rebuilt key.now.shape.k key.now.keys.now key.now.cut links.old links.new (a ∷ b ∷ c ∷ []) result }
{
    let three = key.in_rank(a, b, c);
    put_links(links, three.low, 0, 0, 1);
    put_links(links, three.high, 0, 0, 1);
    put_links(links, three.middle, three.low, three.high, 2);
    three.middle
}

// At most three slots rebuilt.
pub fn rebuild_few(key: &SuperKey<'_>, links: &mut [usize], slots: &[usize]) -> usize
    requires room { Room key.now.shape (length key.now.keys.now) (length links.old) }
    requires chosen { Chosen key.now.shape.c slots.now × (length slots.now ≤ 3) }
    ensures { Rebuilt key.now.shape.k key.now.keys.now key.now.cut links.old links.new slots.now result }
{
    match slots {
        [] => 0,
        &[a] => {
            put_links(links, a, 0, 0, 1);
            a
        }
        &[a, b] => rebuild_two(key, links, a, b),
        &[a, b, c, ..] => rebuild_three(key, links, a, b, c),
    }
}
