// What the sender's states up to a cut have in transit on a channel: all of it, or whether a stamp is there.
ghost use Rattle.std.specs.Prelude.{◌≡◌, List, ◌≤◌, ◌<◌, length, IfSome};
ghost use Rattle.model.specs.declared.Message.{Message};
ghost use Rattle.model.specs.Clause.{some_of, same_z};
ghost use Rattle.model.specs.Cut.{add, in_transit};
ghost use Rattle.run.specs.Said.{run_in};
ghost use Rattle.transit.specs.Waiting.{inside};
ghost use Rattle.transit.specs.Load.{LoadOf};
ghost use Rattle.transit.specs.Asked.{Asked};

use crate::Load;
use crate::sender::{span_of, waits, waits_with};
use model::Message;
use run::indexed::Indexed;

// The load with what one state more has in transit.
fn load_with(load: Option<Load>, waiting: Option<Message>) -> Option<Load>
    requires { IfSome load (λ l. l.count < 512) }
    ensures { (ms : List Message) → LoadOf ms load → LoadOf (add (inside waiting) ms) result }
{
    let Some(message) = waiting else {
        return load;
    };
    let Some(load) = load else {
        return Some(Load {
            count: 1,
            lowest: message.stamp,
        });
    };
    Some(Load {
        count: load.count + 1,
        lowest: load.lowest.min(message.stamp),
    })
}

// What is in transit on a channel at the cut, consistent or not: no load where nothing is.
pub fn load_on(run: &Indexed<'_>, cut: &[u16], channel: u16) -> Option<Load>
    requires { Asked run.now.run cut.now channel }
    ensures { LoadOf (in_transit (run_in run.now.run) cut.now channel) result
        × (length (in_transit (run_in run.now.run) cut.now channel) ≤ 512) }
{
    let span = span_of(run, cut, channel);
    let mut load = None;
    for k in 0..span.sent {
        load = load_with(load, waits(run, span, k + 1));
    }
    load
}

// Whether a message with this stamp is in transit there.
pub fn has_stamp(run: &Indexed<'_>, cut: &[u16], channel: u16, stamp: i32) -> bool
    requires { Asked run.now.run cut.now channel }
    ensures { result ≡ some_of (λ m. same_z m.stamp stamp) (in_transit (run_in run.now.run) cut.now channel) }
{
    let span = span_of(run, cut, channel);
    (0..span.sent).any(|k| waits_with(run, span, k + 1, stamp))
}

pub fn count_in(load: Option<Load>) -> usize
    ensures { (ms : List Message) → LoadOf ms load → result ≡ length ms }
{
    load.map_or(0, |load| load.count)
}
