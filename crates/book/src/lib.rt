// The public calls. Each takes every input: it checks in the order of the table, then works, and answers with the whole answer.
#![tactic(auto)]

ghost use Rattle.std.specs.Prelude.{◌≡◌};
ghost use Rattle.model.specs.Calls as calls;

use ask::walk::Walk;
use cells::pool::Pool;
use model::{Answer, Bound, Entry, Head, Outcome, Refusal, Shape};
use reply::{answer, gate};
use text::{Broken, Title};
use weigh::known::Known;

mod batch; // batch.rt: many adds and strikes in one call

pub use batch::tray;

// A fresh pool over whatever the memory held.
pub fn start(k: usize, c: usize, keys: &mut [i64], links: &mut [usize]) -> Answer
    ensures answer { result ≡ (calls.start k c keys.old links.old).answer }
    ensures keys { keys.new ≡ (calls.start k c keys.old links.old).keys }
    ensures links { links.new ≡ (calls.start k c keys.old links.old).links }
{
    if let Err(why) = gate::sizes(k, c, keys.len(), links.len(), c) {
        return answer::refused(Head::default(), why);
    }
    desk::fresh::clear_numbers(keys);
    desk::fresh::chain_up(links, c);
    answer::begun(k, c)
}

// The slot of an entry, by the walk from the root, which trusts nothing.
pub fn look_up(head: Head, keys: &[i64], links: &[usize], entry: Entry) -> Answer
    ensures { result ≡ (calls.look_up head keys.now links.now entry).answer }
{
    if let Err(why) = gate::sizes(head.k, head.c, keys.len(), links.len(), head.c) {
        return answer::refused(head, why);
    }
    match ask::walk::walk_down(Shape::from(head), head.root, entry, keys, links) {
        Walk::Found(slot, reads) => {
            answer::met(head, sheet::cut::cut_to(entry, head.k), slot, reads)
        }
        Walk::Gone(reads) => answer::unmet(head, reads),
        Walk::Astray => answer::refused(head, Refusal::Unsound),
    }
}

// How many entries a box holds.
pub fn count(head: Head, keys: &[i64], links: &[usize], bounds: [Bound; 4]) -> Answer
    ensures { result ≡ (calls.count head keys.now links.now bounds).answer }
{
    if let Err(why) = gate::pool(head, keys, links, head.c) {
        return answer::refused(head, why);
    }
    let n = sheet::spare::count(&Known { head, keys, links }, bounds);
    answer::counted(head, n)
}

// The entries of a box in listing order, K numbers each; room behind them is untouched.
pub fn list(
    head: Head,
    keys: &[i64],
    links: &[usize],
    bounds: [Bound; 4],
    room: &mut [i64],
) -> Answer
    ensures answer { result ≡ (calls.list head keys.now links.now bounds room.old).answer }
    ensures room { room.new ≡ (calls.list head keys.now links.now bounds room.old).room }
{
    if let Err(why) = gate::pool(head, keys, links, head.c) {
        return answer::refused(head, why);
    }
    match sheet::spare::list(&Known { head, keys, links }, bounds, room) {
        Ok(count) => answer::counted(head, count),
        Err(_) => answer::refused(head, Refusal::Room),
    }
}

// The entry nearest a note, by steps; at a tie the first in listing order.
pub fn nearest(head: Head, keys: &[i64], links: &[usize], query: Entry, steps: [u64; 4]) -> Answer
    ensures { result ≡ (calls.near head keys.now links.now query steps).answer }
{
    if let Err(why) = gate::pool(head, keys, links, head.c) {
        return answer::refused(head, why);
    }
    if weigh::step::zero_step(steps, head.k) {
        return answer::refused(head, Refusal::Step);
    }
    let shape = Shape::from(head);
    let pool = Pool { shape, keys, links };
    let found = ask::near::nearest(&pool, head.root, query, steps);
    let Some(b) = found else {
        return answer::plain(Outcome::Absent, head);
    };
    let e = cells::slot::entry_at(keys, shape, b.slot);
    answer::close(head, e, b.slot, b.distance)
}

// A new entry in the first free slot, and the upward check along its path.
pub fn add(
    head: Head,
    keys: &mut [i64],
    links: &mut [usize],
    scratch: &mut [usize],
    entry: Entry,
) -> Answer
    ensures answer { result ≡ (calls.add head keys.old links.old scratch.old entry).answer }
    ensures keys { keys.new ≡ (calls.add head keys.old links.old scratch.old entry).keys }
    ensures links { links.new ≡ (calls.add head keys.old links.old scratch.old entry).links }
    ensures scratch { scratch.new ≡ (calls.add head keys.old links.old scratch.old entry).scratch }
{
    if let Err(why) = gate::pool(head, keys, links, scratch.len()) {
        return answer::refused(head, why);
    }
    if weigh::pool::is_there(&Known { head, keys, links }, entry) {
        return answer::refused(head, Refusal::Present);
    }
    if head.n == head.c {
        return answer::refused(head, Refusal::Full);
    }
    scratch.fill(0);
    let after = desk::spare::add(head, keys, links, scratch, entry);
    answer::plain(Outcome::Done, after)
}

// One entry out, its replacement moved, and the upward check along the path of the leaf that goes.
pub fn strike(
    head: Head,
    keys: &mut [i64],
    links: &mut [usize],
    scratch: &mut [usize],
    entry: Entry,
) -> Answer
    ensures answer { result ≡ (calls.strike_out head keys.old links.old scratch.old entry).answer }
    ensures keys { keys.new ≡ (calls.strike_out head keys.old links.old scratch.old entry).keys }
    ensures links { links.new ≡ (calls.strike_out head keys.old links.old scratch.old entry).links }
    ensures scratch { scratch.new ≡ (calls.strike_out head keys.old links.old scratch.old entry).scratch }
{
    if let Err(why) = gate::pool(head, keys, links, scratch.len()) {
        return answer::refused(head, why);
    }
    if !weigh::pool::is_there(&Known { head, keys, links }, entry) {
        return answer::refused(head, Refusal::Missing);
    }
    scratch.fill(0);
    let after = desk::spare::strike(head, keys, links, scratch, entry);
    answer::plain(Outcome::Done, after)
}

// The text of the book; room behind it is untouched.
pub fn save(head: Head, keys: &[i64], links: &[usize], room: &mut [u8]) -> Answer
    ensures answer { result ≡ (calls.save head keys.now links.now room.old).answer }
    ensures page { room.new ≡ (calls.save head keys.now links.now room.old).page }
{
    if let Err(why) = gate::pool(head, keys, links, head.c) {
        return answer::refused(head, why);
    }
    match sheet::spare::save(&Known { head, keys, links }, room) {
        Some(bytes) => answer::wrote(head, bytes),
        None => answer::refused(head, Refusal::Room),
    }
}

// A saved text, whole or not at all: what is not yet there is added in text order, and nothing is struck.
pub fn take_in(
    head: Head,
    keys: &mut [i64],
    links: &mut [usize],
    scratch: &mut [usize],
    text: &[u8],
) -> Answer
    ensures answer { result ≡ (calls.take_in head keys.old links.old scratch.old text.now).answer }
    ensures keys { keys.new ≡ (calls.take_in head keys.old links.old scratch.old text.now).keys }
    ensures links { links.new ≡ (calls.take_in head keys.old links.old scratch.old text.now).links }
    ensures scratch { scratch.new ≡ (calls.take_in head keys.old links.old scratch.old text.now).scratch }
{
    if let Err(why) = gate::pool(head, keys, links, scratch.len()) {
        return answer::refused(head, why);
    }
    match text::take_apart(text) {
        Err(Broken { line }) => answer::broken(head, line),
        Ok(Title { fields, entries }) => {
            if fields != head.k {
                return answer::refused(head, Refusal::Mismatch);
            }
            if weigh::lines::too_many(&Known { head, keys, links }, text, entries) {
                return answer::refused(head, Refusal::Full);
            }
            scratch.fill(0);
            let after = desk::spare::take_in(head, keys, links, scratch, text, entries);
            answer::plain(Outcome::Done, after)
        }
    }
}
