// The line of a refusal.
ghost use Rattle.std.specs.Prelude.{◌≤◌, length};
ghost use Rattle.model.specs.Show.{refusal_line};
ghost use Rattle.print.specs.Place.{Puts};

use crate::word::put_number;
use model::Refusal;

// The number and the line, with the LF; 160 bytes are enough.
pub fn put_refusal(room: &mut [u8], why: Refusal, line: usize) -> usize
    requires { 160 ≤ length room.old }
    ensures { Puts room.old 0 (refusal_line why line) room.new result }
{
    let a = put_number(room, 0, b"refused=", usize::from(why));
    let b = put_number(room, a, b" line=", line);
    room[b] = b'\n';
    b + 1
}
