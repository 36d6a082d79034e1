// A pool that is known to be sound, as a call reads it.
ghost use Rattle.weigh.specs.Sounds.{Sound};

use model::Head;

// Its head and its two tables.
#[derive(Clone, Copy)]
pub struct Known<'a> {
    pub head: Head,
    pub keys: &'a [i64],
    pub links: &'a [usize],
    pub ghost sound: { Sound head keys.now links.now },
}
