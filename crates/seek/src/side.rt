// The two sides of an entry.
ghost use Rattle.std.specs.Prelude.{◌≡◌, ◌*◌, ◌≤◌, length};
ghost use Rattle.cells.specs.Slots.{left_at, right_at, tall, Slot};
ghost use Rattle.seek.specs.Sides.{child_at, other_of, higher_of};

// Below or above, under the super key of the entry.
#[derive(Clone, Copy)]
pub enum Side {
    Left,
    Right,
}

impl Side {
    // The other of the two.
    pub fn other(self) -> Side
        ensures { result ≡ other_of self }
    {
        match self {
            Side::Left => Side::Right,
            Side::Right => Side::Left,
        }
    }

    // The child on this side; 0 is no slot, as the links are laid out in lent memory, which C shares.
    pub fn child_of(self, links: &[usize], s: usize) -> usize
        requires { Slot (length links.now) s }
        ensures { result ≡ child_at links.now s self }
    {
        match self {
            Side::Left => cells::slot::left_of(links, s),
            Side::Right => cells::slot::right_of(links, s),
        }
    }

    // The side of the higher child; at equal heights the right one.
    pub fn higher(links: &[usize], s: usize) -> Side
        requires { Slot (length links.now) s × ((3 * left_at links.now s ≤ length links.now) × (3 * right_at links.now s ≤ length links.now)) }
        ensures { result ≡ higher_of (tall links.now (left_at links.now s)) (tall links.now (right_at links.now s)) }
    {
        let l = cells::slot::left_of(links, s);
        let r = cells::slot::right_of(links, s);
        if cells::slot::height_of(links, r) < cells::slot::height_of(links, l) {
            Side::Left
        } else {
            Side::Right
        }
    }
}
