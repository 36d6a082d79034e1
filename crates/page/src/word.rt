// The pieces of a printed line, each written from a place on; each function returns the place behind what it wrote.
// The place stays beside the room, as in `print`: with a part of the room in place of both, each call would add up lengths.
ghost use Rattle.std.specs.Prelude.{◌∷◌, [], ◌++◌, ◌+◌, ◌<◌, ◌≤◌, length};
ghost use Rattle.model.specs.Show.{cut_is};
ghost use Rattle.model.specs.Text.{decimal};
ghost use Rattle.print.specs.Place.{Puts};

// A word with a number behind it.
pub fn put_number(room: &mut [u8], at: usize, word: &[u8], n: usize) -> usize
    requires { at + length (word.now ++ decimal n) ≤ length room.old }
    ensures { Puts room.old at (word.now ++ decimal n) room.new result }
{
    let to = print::put_bytes(room, at, word);
    print::put_decimal(room, to, n)
}

// The name of the cut field, and the space in front of the entry.
pub fn put_cut(room: &mut [u8], at: usize, cut: usize) -> usize
    requires { (cut < 4) × (at + length (cut_is ++ ((97 + cut) ∷ 32 ∷ [])) ≤ length room.old) }
    ensures { Puts room.old at (cut_is ++ ((97 + cut) ∷ 32 ∷ [])) room.new result }
{
    let to = print::put_bytes(room, at, b" cut=");
    room[to] = 97 + cut as u8;
    room[to + 1] = b' ';
    to + 2
}
