// The doors of the book for C and Rust: each makes its arguments the book's own, asks the call, and makes the answer flat.
#![tactic(auto)]

ghost use Rattle.std.specs.Prelude.{◌≡◌};
ghost use Rattle.model.specs.Calls as calls;
ghost use Rattle.model.specs.Tray as trays;
ghost use Rattle.unit.specs.Doors.{judged};
ghost use Rattle.unit.specs.Face.{told, bounds};

use crate::face::{Limits, Steps, Told};
use model::{Entry, Head};

pub mod face;
pub mod inner;
pub mod told;

// 0 where a pool is sound, else the number of the first of refusals 1 to 4 that holds: C gets numbers.
#[unsafe(no_mangle)]
pub extern "C" fn book_judge(head: Head, keys: &[i64], links: &[usize]) -> usize
    ensures { result ≡ judged head keys.now links.now }
{
    match reply::gate::pool(head, keys, links, head.c) {
        Ok(()) => 0,
        Err(why) => usize::from(why),
    }
}

// A fresh pool over whatever the memory held.
#[unsafe(no_mangle)]
pub extern "C" fn book_start(k: usize, c: usize, keys: &mut [i64], links: &mut [usize]) -> Told
    ensures answer { result ≡ told (calls.start k c keys.old links.old).answer }
    ensures keys { keys.new ≡ (calls.start k c keys.old links.old).keys }
    ensures links { links.new ≡ (calls.start k c keys.old links.old).links }
{
    Told::from(book::start(k, c, keys, links))
}

// The slot of an entry, and how many entries the walk to it met.
#[unsafe(no_mangle)]
pub extern "C" fn book_look_up(head: Head, keys: &[i64], links: &[usize], entry: Entry) -> Told
    ensures { result ≡ told (calls.look_up head keys.now links.now entry).answer }
{
    Told::from(book::look_up(head, keys, links, entry))
}

// How many entries a box holds.
#[unsafe(no_mangle)]
pub extern "C" fn book_count(head: Head, keys: &[i64], links: &[usize], limits: Limits) -> Told
    ensures { result ≡ told (calls.count head keys.now links.now (bounds limits.of)).answer }
{
    Told::from(book::count(head, keys, links, inner::bounds(limits)))
}

// The entries of a box in listing order, K numbers each; room behind them is untouched.
#[unsafe(no_mangle)]
pub extern "C" fn book_list(
    head: Head,
    keys: &[i64],
    links: &[usize],
    limits: Limits,
    room: &mut [i64],
) -> Told
    ensures answer { result ≡ told (calls.list head keys.now links.now (bounds limits.of) room.old).answer }
    ensures room { room.new ≡ (calls.list head keys.now links.now (bounds limits.of) room.old).room }
{
    Told::from(book::list(head, keys, links, inner::bounds(limits), room))
}

// The entry nearest a note, by steps; at a tie the first in listing order.
#[unsafe(no_mangle)]
pub extern "C" fn book_nearest(
    head: Head,
    keys: &[i64],
    links: &[usize],
    query: Entry,
    steps: Steps,
) -> Told
    ensures { result ≡ told (calls.near head keys.now links.now query steps.of).answer }
{
    Told::from(book::nearest(head, keys, links, query, steps.of))
}

// A new entry in the first free slot.
#[unsafe(no_mangle)]
pub extern "C" fn book_add(
    head: Head,
    keys: &mut [i64],
    links: &mut [usize],
    scratch: &mut [usize],
    entry: Entry,
) -> Told
    ensures answer { result ≡ told (calls.add head keys.old links.old scratch.old entry).answer }
    ensures keys { keys.new ≡ (calls.add head keys.old links.old scratch.old entry).keys }
    ensures links { links.new ≡ (calls.add head keys.old links.old scratch.old entry).links }
    ensures scratch { scratch.new ≡ (calls.add head keys.old links.old scratch.old entry).scratch }
{
    Told::from(book::add(head, keys, links, scratch, entry))
}

// One entry out.
#[unsafe(no_mangle)]
pub extern "C" fn book_strike(
    head: Head,
    keys: &mut [i64],
    links: &mut [usize],
    scratch: &mut [usize],
    entry: Entry,
) -> Told
    ensures answer { result ≡ told (calls.strike_out head keys.old links.old scratch.old entry).answer }
    ensures keys { keys.new ≡ (calls.strike_out head keys.old links.old scratch.old entry).keys }
    ensures links { links.new ≡ (calls.strike_out head keys.old links.old scratch.old entry).links }
    ensures scratch { scratch.new ≡ (calls.strike_out head keys.old links.old scratch.old entry).scratch }
{
    Told::from(book::strike(head, keys, links, scratch, entry))
}

// The text of the book; room behind it is untouched.
#[unsafe(no_mangle)]
pub extern "C" fn book_save(head: Head, keys: &[i64], links: &[usize], room: &mut [u8]) -> Told
    ensures answer { result ≡ told (calls.save head keys.now links.now room.old).answer }
    ensures page { room.new ≡ (calls.save head keys.now links.now room.old).page }
{
    Told::from(book::save(head, keys, links, room))
}

// A saved text, whole or not at all; only what is not yet there is added.
#[unsafe(no_mangle)]
pub extern "C" fn book_take_in(
    head: Head,
    keys: &mut [i64],
    links: &mut [usize],
    scratch: &mut [usize],
    text: &[u8],
) -> Told
    ensures answer { result ≡ told (calls.take_in head keys.old links.old scratch.old text.now).answer }
    ensures keys { keys.new ≡ (calls.take_in head keys.old links.old scratch.old text.now).keys }
    ensures links { links.new ≡ (calls.take_in head keys.old links.old scratch.old text.now).links }
    ensures scratch { scratch.new ≡ (calls.take_in head keys.old links.old scratch.old text.now).scratch }
{
    Told::from(book::take_in(head, keys, links, scratch, text))
}

// A tray of adds and strikes in order, whole or not at all.
#[unsafe(no_mangle)]
pub extern "C" fn book_tray(
    head: Head,
    keys: &mut [i64],
    links: &mut [usize],
    scratch: &mut [usize],
    items: &[i64],
) -> Told
    ensures answer { result ≡ told (trays.tray head keys.old links.old scratch.old items.now).answer }
    ensures keys { keys.new ≡ (trays.tray head keys.old links.old scratch.old items.now).keys }
    ensures links { links.new ≡ (trays.tray head keys.old links.old scratch.old items.now).links }
    ensures scratch { scratch.new ≡ (trays.tray head keys.old links.old scratch.old items.now).scratch }
{
    Told::from(book::tray(head, keys, links, scratch, items))
}
