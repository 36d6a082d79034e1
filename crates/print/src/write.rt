// Printing into a lent slice, from a place on; each function returns the place behind what it wrote.
// The place stays beside the slice: with a part of the slice in place of both, each call would cut it anew and add up lengths.
ghost use Rattle.std.specs.Prelude.{◌≡◌, ◌∷◌, [], ◌++◌, ◌+◌, ◌-◌, ◌<◌, ◌≤◌, length};
ghost use Rattle.model.specs.Text.{decimal, signed, pairs, title};
ghost use Rattle.print.specs.Place.{Puts};
ghost use Rattle.print.specs.Line.{end_byte_of, pair_of};

use crate::size::magnitude;

// Any bytes, as a word that a caller has.
pub fn put_bytes(out: &mut [u8], at: usize, bytes: &[u8]) -> usize
    requires { at + length bytes.now ≤ length out.old }
    ensures { Puts out.old at bytes.now out.new result }
{
    let end = at + bytes.len();
    out[at..end].copy_from_slice(bytes);
    end
}

// The digits in front of the last one first.
pub fn put_decimal(out: &mut [u8], at: usize, n: usize) -> usize
    requires { at + length (decimal n) ≤ length out.old }
    ensures { Puts out.old at (decimal n) out.new result }
{
    if n < 10 {
        out[at] = b'0' + n as u8;
        return at + 1;
    }
    let last = put_decimal(out, at, n / 10);
    out[last] = b'0' + (n % 10) as u8;
    last + 1
}

// A number with its sign.
pub fn put_signed(out: &mut [u8], at: usize, x: i64) -> usize
    requires { at + length (signed x) ≤ length out.old }
    ensures { Puts out.old at (signed x) out.new result }
{
    let digits = magnitude(x);
    if x < 0 {
        out[at] = b'-';
        return put_decimal(out, at + 1, digits);
    }
    put_decimal(out, at, digits)
}

// The first line with its LF.
pub fn put_title(out: &mut [u8], at: usize, k: usize, n: usize) -> usize
    requires { at + length (title k n ++ (10 ∷ [])) ≤ length out.old }
    ensures { Puts out.old at (title k n ++ (10 ∷ [])) out.new result }
{
    let fields = put_bytes(out, at, b"book=1 fields=");
    let word = put_decimal(out, fields, k);
    let entries = put_bytes(out, word, b" entries=");
    let end = put_decimal(out, entries, n);
    out[end] = b'\n';
    end + 1
}

// One pair of an entry line and the byte that ends it.
fn put_pair(out: &mut [u8], at: usize, name: u8, x: i64, end: u8) -> usize
    requires { at + length (pair_of name x end) ≤ length out.old }
    ensures { Puts out.old at (pair_of name x end) out.new result }
{
    out[at] = name;
    out[at + 1] = b'=';
    let to = put_signed(out, at + 2, x);
    out[to] = end;
    to + 1
}

// The byte that ends the pair at i of n: LF behind the last.
pub fn end_byte(i: usize, n: usize) -> u8
    requires { i < n }
    ensures { result ≡ end_byte_of (n - i) }
{
    if i + 1 == n { b'\n' } else { b' ' }
}

// An entry line with its LF.
pub fn put_line(out: &mut [u8], at: usize, part: &[i64]) -> usize
    requires { (at + length (pairs 97 part.now ++ (10 ∷ [])) ≤ length out.old) × (length part.now ≤ 4) }
    ensures { Puts out.old at (pairs 97 part.now ++ (10 ∷ [])) out.new result }
{
    if part.is_empty() {
        out[at] = b'\n';
        return at + 1;
    }
    let mut to = at;
    for (i, x) in part.iter().enumerate() {
        to = put_pair(out, to, b'a' + i as u8, *x, end_byte(i, part.len()));
    }
    to
}
