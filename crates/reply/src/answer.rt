// One maker for each kind of answer, over the plain one: every part that a call has no value for is 0.
ghost use Rattle.std.specs.Prelude.{◌≡◌, ◌≤◌};
ghost use Rattle.model.specs.Answer as answers;
ghost use Rattle.model.specs.Book as books;
ghost use Rattle.model.specs.Entry as entries;
ghost use Rattle.model.specs.declared.Outcome.TheVariants.{Done};
ghost use Rattle.model.specs.declared.Refusal.TheVariants.{Text};

use model::{Answer, Entry, Head, Outcome, Refusal};

pub fn plain(outcome: Outcome, head: Head) -> Answer
    ensures { result ≡ answers.plain outcome head }
{
    Answer {
        outcome,
        head,
        entry: Entry::default(),
        slot: 0,
        reads: 0,
        distance: 0,
        count: 0,
        bytes: 0,
        line: 0,
        place: 0,
    }
}

// A fresh pool has no entry, and slot 1 is its first free one.
pub fn begun(k: usize, c: usize) -> Answer
    ensures { 1 ≤ c → result ≡ answers.plain Done (books.head_of k c (books.fresh c)) }
{
    let head = Head {
        k,
        c,
        free: 1,
        ..Head::default()
    };
    plain(Outcome::Done, head)
}

// A refusal tells its number alone.
pub fn refused(head: Head, why: Refusal) -> Answer
    ensures { result ≡ answers.refused head 0 why }
{
    plain(Outcome::Refused(why), head)
}

// Refusal 9 tells the line of the text too.
pub fn broken(head: Head, line: usize) -> Answer
    ensures { result ≡ answers.refused head line Text }
{
    Answer {
        line,
        ..refused(head, Refusal::Text)
    }
}

// The refusal of an item of a tray tells its place too.
pub fn refused_at(head: Head, place: usize, why: Refusal) -> Answer
    ensures { result ≡ answers.refused_at head place why }
{
    Answer {
        place,
        ..refused(head, why)
    }
}

// A found entry, its numbers already 0 beyond the fields.
pub fn met(head: Head, entry: Entry, slot: usize, reads: usize) -> Answer
    ensures { (e : entries.Entry) → entry ≡ answers.outward e → result ≡ answers.met head e slot reads }
{
    Answer {
        entry,
        slot,
        reads,
        ..plain(Outcome::Found, head)
    }
}

pub fn unmet(head: Head, reads: usize) -> Answer
    ensures { result ≡ answers.unmet head reads }
{
    Answer {
        reads,
        ..plain(Outcome::Absent, head)
    }
}

// The nearest entry, its numbers already 0 beyond the fields.
pub fn close(head: Head, entry: Entry, slot: usize, distance: u64) -> Answer
    ensures { (e : entries.Entry) → entry ≡ answers.outward e → result ≡ answers.close head e slot distance }
{
    Answer {
        entry,
        slot,
        distance,
        ..plain(Outcome::Found, head)
    }
}

// The number of entries of a box.
pub fn counted(head: Head, count: usize) -> Answer
    ensures { result ≡ answers.counted head count }
{
    Answer {
        count,
        ..plain(Outcome::Done, head)
    }
}

// The number of bytes of a text.
pub fn wrote(head: Head, bytes: usize) -> Answer
    ensures { result ≡ answers.wrote head bytes }
{
    Answer {
        bytes,
        ..plain(Outcome::Done, head)
    }
}
