// What stands in a state record, and the ends of a channel.
ghost use Rattle.std.specs.Prelude.{◌≡◌, ◌+◌, ◌≤◌, length};
ghost use Rattle.record.specs.Inner.{values_place};
ghost use Rattle.record.specs.Record.{state_fields_at};
ghost use Rattle.states.specs.States.{message_of, event_of, channel_at};
ghost use Rattle.states.specs.Inner.{held, HasChannel};

use crate::State;
use model::{Channel, Event, Message};
use record::StateFields;
use record::bytes::{signed_of, u16_at};
use record::layout::{VALUES_PLACE, channel_place};
use record::reading::state_fields_at;

#[tactic(auto, unfolding(crate::specs::States::message_of))]
fn message_of(f: StateFields) -> Message
    ensures { result ≡ message_of f }
{
    let stamp = signed_of(f.stamp);
    Message {
        channel: f.channel,
        number: f.message,
        stamp,
    }
}

#[tactic(auto, unfolding(crate::specs::States::event_of))]
fn event_of(f: StateFields) -> Event
    ensures { result ≡ event_of f }
{
    match f.event {
        0 => Event::Start,
        1 => Event::Internal,
        2 => Event::Send(message_of(f)),
        _ => Event::Receive(message_of(f)),
    }
}

// The state at a place whose bytes up to its values are there.
pub fn state_at(run: &[u8], at: usize) -> State
    requires { at + values_place ≤ length run.now }
    ensures { result ≡ held (state_fields_at run.now at) at }
{
    let f = state_fields_at(run, at);
    let event = event_of(f);
    State {
        process: f.process,
        event,
        values: at + VALUES_PLACE,
    }
}

// The ends of channel h, whose record is there.
#[tactic(auto, unfolding(crate::specs::States::channel_at))]
pub fn channel_at(run: &[u8], h: u16) -> Channel
    requires { HasChannel run.now h }
    ensures { result ≡ channel_at run.now h }
{
    let at = channel_place(h);
    let from = u16_at(run, at + 6);
    let to = u16_at(run, at + 8);
    Channel { from, to }
}
