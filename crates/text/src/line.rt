// Reading an entry line at the front of a text: pairs from left to right, each with its name, its number and the byte that ends it.
ghost use Rattle.std.specs.Prelude.{List, ℕ, ◌≡◌, ◌≤◌, take, option_map, IfSome};
ghost use Rattle.model.specs.Entry.{Entry};
ghost use Rattle.text.specs.Strict.{line_at, pair_at};
ghost use Rattle.text.specs.Told.{Filled, ReadBack, Standing, Stands, told};

use crate::number::read_number;
use print::end_byte;

// One pair and the byte that ends it.
fn read_pair(text: &[u8], name: u8, end: u8) -> Option<(i64, &[u8])>
    ensures { told result ≡ pair_at name end text.now }
{
    let [a, b'=', digits @ ..] = text else {
        return None;
    };
    if *a != name {
        return None;
    }
    let (x, behind) = read_number(digits)?;
    match behind {
        [b, rest @ ..] if *b == end => Some((x, rest)),
        _ => None,
    }
}

// The k pairs of a line: its numbers, 0 beyond them, and what stands behind its LF.
pub fn read_line(text: &[u8], k: usize) -> Option<([i64; 4], &[u8])>
    requires { k ≤ 4 }
    ensures read { told (option_map (λ l. (take k l.0, l.1)) result) ≡ line_at k 97 text.now }
    ensures filled { IfSome result (λ l. Filled k l.0) }
{
    let mut f = [0i64; 4];
    let mut rest = text;
    // i names the pair, says what ends it, and where its number goes
    for i in 0..k {
        (f[i], rest) = read_pair(rest, b'a' + i as u8, end_byte(i, k))?;
    }
    Some((f, rest))
}

// The entry of a line that is known to stand there, and what stands behind the line.
pub fn read_entry(text: &[u8], k: usize) -> (model::Entry, &[u8])
    requires { ((1 ≤ k) × (k ≤ 4)) × Standing text.now k }
    ensures { (e : Entry) (rest : List ℕ) → Stands text.now k e rest → ReadBack result e rest }
{
    let (f, rest) = read_line(text, k).unwrap();
    (model::Entry { f }, rest)
}
