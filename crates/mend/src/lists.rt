// The lists that a rebuild needs, lent with the pool.

// A scratch for a subtree's slots, 0 wherever no call is at work, and a spare list for ranking them.
#[derive(Drop)]
pub struct Lists<'a> {
    pub scratch: &'a mut [usize],
    pub spare: &'a mut [usize],
}
