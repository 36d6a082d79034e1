// A text that is a saved book, taken into a fresh pool of 512, and what that comes to.
ghost use Rattle.std.specs.Prelude.{◌≡◌, ◌*◌, ◌≤◌, length, replicate, pos};
ghost use Rattle.model.specs.Gate.{reading};
ghost use Rattle.model.specs.Show.{taken_lines, shown_text};
ghost use Rattle.model.specs.Text.{parse};
ghost use Rattle.weigh.specs.Sounds.{Sound};
ghost use Rattle.print.specs.Place.{Puts};
ghost use Rattle.page.specs.Texts.{SavedIn};

use crate::pool::put_book;
use crate::refusal::put_refusal;
use model::{Answer, Outcome};
use weigh::known::Known;

// The book, or the refusal.
pub fn put_answer(answer: Answer, keys: &[i64], links: &[usize], room: &mut [u8]) -> usize
    requires { Sound answer.head keys.now links.now × ((answer.head.c ≡ 512) × (82080 ≤ length room.old)) }
    ensures { Puts room.old 0 (taken_lines answer.head.k (reading answer keys.now links.now) answer.outcome) room.new result }
{
    match answer.outcome {
        Outcome::Found | Outcome::Absent => 0,
        Outcome::Done => {
            let head = answer.head;
            put_book(&Known { head, keys, links }, room)
        }
        Outcome::Refused(why) => put_refusal(room, why, answer.line),
    }
}

// The pool is lent as memory that is all 0.
pub fn put_taken(
    text: &[u8],
    k: usize,
    keys: &mut [i64],
    links: &mut [usize],
    scratch: &mut [usize],
    room: &mut [u8],
) -> usize
    requires saved_in { SavedIn text.now k × (82080 ≤ length room.old) }
    requires keys_value { (keys.old ≡ replicate (k * 512) (pos 0)) × ((links.old ≡ replicate 1536 0) × (scratch.old ≡ replicate 512 0)) }
    ensures { Puts room.old 0 (shown_text text.now (parse text.now)) room.new result }
{
    let fresh = book::start(k, 512, keys, links);
    let taken = book::take_in(fresh.head, keys, links, scratch, text);
    put_answer(taken, keys, links, room)
}
