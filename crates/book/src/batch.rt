// A finished tray in one go: its adds and strikes in order, whole or not at all.
ghost use Rattle.std.specs.Prelude.{◌≡◌};
ghost use Rattle.model.specs.Tray as trays;

use model::{Answer, Head, Outcome};
use reply::{answer, gate};
use weigh::known::Known;

// Every item is judged before the first cell changes, so a refused tray has written nothing.
pub fn tray(
    head: Head,
    keys: &mut [i64],
    links: &mut [usize],
    scratch: &mut [usize],
    items: &[i64],
) -> Answer
    ensures answer { result ≡ (trays.tray head keys.old links.old scratch.old items.now).answer }
    ensures keys { keys.new ≡ (trays.tray head keys.old links.old scratch.old items.now).keys }
    ensures links { links.new ≡ (trays.tray head keys.old links.old scratch.old items.now).links }
    ensures scratch { scratch.new ≡ (trays.tray head keys.old links.old scratch.old items.now).scratch }
{
    if let Err(why) = gate::tray(head, keys, links, scratch.len(), items) {
        return answer::refused(head, why);
    }
    if let Some((place, why)) = weigh::judging::first_wrong(&Known { head, keys, links }, items) {
        return answer::refused_at(head, place, why);
    }
    scratch.fill(0);
    let after = desk::spare::work(head, keys, links, scratch, items);
    answer::plain(Outcome::Done, after)
}
