// What the doors pass by value besides the head and the entry, in C's layout. An enum does not go through a door: it goes as numbers.
use model::{Entry, Head};

// The bound of one field: kind 0 free, 1 at least low, 2 at most high, any other between low and high.
#[repr(C)]
#[derive(Clone, Copy)]
pub struct Limit {
    pub kind: usize,
    pub low: i64,
    pub high: i64,
}

#[repr(C)]
#[derive(Clone, Copy)]
pub struct Limits {
    pub of: [Limit; 4],
}

#[repr(C)]
#[derive(Clone, Copy)]
pub struct Steps {
    pub of: [u64; 4],
}

// An answer, its outcome as 1 found, 2 absent, 3 done, 4 refused, and the refusal's number beside it.
#[repr(C)]
#[derive(Clone, Copy)]
pub struct Told {
    pub outcome: usize,
    pub refusal: usize,
    pub head: Head,
    pub entry: Entry,
    pub slot: usize,
    pub reads: usize,
    pub distance: u64,
    pub count: usize,
    pub bytes: usize,
    pub line: usize,
    pub place: usize,
}
