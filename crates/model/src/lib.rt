// The types that every crate passes: document 01, "The book and its edges", in the forms that it names.
#![tactic(auto)]

// Up to four numbers; those beyond the book's fields are ignored on the way in and 0 on the way out.
#[repr(C)]
#[derive(Clone, Copy, Default)]
pub struct Entry {
    pub f: [i64; 4],
}

// What stands outside the lent memory: fields, capacity, root, first free slot, number of entries.
#[repr(C)]
#[derive(Clone, Copy, Default)]
pub struct Head {
    pub k: usize,
    pub c: usize,
    pub root: usize,
    pub free: usize,
    pub n: usize,
}

// The part of a head that says how the pool is laid out and cut.
#[derive(Clone, Copy)]
pub struct Shape {
    pub k: usize,
    pub c: usize,
}

// The shape that a head gives.
impl From<Head> for Shape {
    ghost use Rattle.std.specs.Prelude.{◌≡◌};

    ghost from_gives = { λ head shape. shape ≡ record { k = head.k; c = head.c } };

    fn from(head: Head) -> Shape {
        Shape {
            k: head.k,
            c: head.c,
        }
    }
}

// What one field may be, ends included.
#[derive(Clone, Copy)]
pub enum Bound {
    Free,
    AtLeast(i64),
    AtMost(i64),
    Between(i64, i64),
}

// A name for each row of the table of refusals, in the table's order.
#[derive(Clone, Copy)]
pub enum Refusal {
    Fields = 1,
    Capacity,
    Lengths,
    Unsound,
    Present,
    Missing,
    Full,
    Room,
    Text,
    Mismatch,
    Step,
    Tray,
}

// The paper's number of a refusal.
impl From<Refusal> for usize {
    ghost use Rattle.std.specs.Prelude.{◌≡◌};
    ghost use Rattle.model.specs.Answer.{number_of};

    ghost from_gives = { λ why n. n ≡ number_of why };

    fn from(why: Refusal) -> usize {
        why as usize
    }
}

#[derive(Clone, Copy)]
pub enum Outcome {
    Found,
    Absent,
    Done,
    Refused(Refusal),
}

// The answer of every call: the outcome beside the head and the entry it belongs to.
#[derive(Clone, Copy)]
pub struct Answer {
    pub outcome: Outcome,
    pub head: Head,
    pub entry: Entry,
    pub slot: usize,
    pub reads: usize,
    pub distance: u64,
    pub count: usize,
    pub bytes: usize,
    pub line: usize,
    pub place: usize,
}
