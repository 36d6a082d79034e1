// An entry on its way out.
ghost use Rattle.std.specs.Prelude.{◌≡◌, ◌≤◌, take};
ghost use Rattle.model.specs.Answer as answers;

use model::Entry;

// The first K numbers of an entry, 0 beyond them.
pub fn cut_to(e: Entry, k: usize) -> Entry
    requires { k ≤ 4 }
    ensures { result ≡ answers.outward (take k e.f) }
{
    cells::slot::entry_of(&e.f[..k])
}
