// The program: one saved book from standard input, its tree to standard output.
#![tactic(auto)]

ghost use Rattle.std.specs.Prelude.{ℕ, ◌≡◌, ◌≢◌, length, take, IfOk, OnErr};
ghost use Rattle.std.specs.Io.{ReadsAtMost};
ghost use Rattle.std.specs.Io.KnownBytes.{Consumes, IsAtEnd};

use std::io;
use std::io::{Print, Read};

// Reads until the room is full or the input ends; returns how many bytes it put at the front of the room.
// A read gives as many bytes as it likes, so no iterator can count them.
fn read_full<R: Read>(reader: &mut R, room: &mut [u8]) -> io::Result<usize>
    ensures within { ReadsAtMost result room.new }
    ensures bytes { IfOk result (λ n. Consumes (R.remaining reader.old) (R.remaining reader.new) (take n room.new)) }
    ensures all { IfOk result (λ n. n ≢ length room.new → IsAtEnd (R.remaining reader.new)) }
    ensures err { OnErr result ((n : ℕ) × Consumes (R.remaining reader.old) (R.remaining reader.new) (take n room.new)) }
{
    let mut done = 0;
    while done < room.len() {
        let n = reader.read(&mut room[done..])?;
        if n == 0 {
            break;
        }
        done += n;
    }
    Ok(done)
}

// One byte more than a book may have is read, so that a longer input is known to be longer.
fn main(rt: HostRuntime) -> io::Result<()> {
    let mut input = [0u8; 32769];
    let n = read_full(&mut rt.stdin(), &mut input)?;
    let mut room = [0u8; page::ROOM];
    let printed = page::shown(&input[..n], &mut room);
    rt.write_all(&room[..printed])
}
