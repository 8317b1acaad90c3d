// An accepted run with its index, lent together: what every question is asked of.
ghost use Rattle.std.specs.Prelude.{◌≡◌, ◌<◌, get_or, take, drop};
ghost use Rattle.model.specs.Run.{into, count, IsState};
ghost use Rattle.record.specs.Record.{head_of};
ghost use Rattle.states.specs.States.{channel_at};
ghost use Rattle.run.specs.Said.{run_in, place_of};
ghost use Rattle.run.specs.Index.{IndexHolds, partner_at, clock_row};
ghost use Rattle.run.specs.Seen.{Seen};

use crate::index::{clock_of, count_of, event_at, partner_of, place_of};
use model::{Channel, Event};
use states::held::channel_at;
use std::marker::Model;

#[derive(Drop)]
pub struct Indexed<'a> {
    pub run: &'a [u8],
    pub index: &'a [u16],
}

impl<'a> Model for Indexed<'a> {
    ghost Value = { Seen };

    ghost view = { λ r. record { run = r.run.now; index = r.index.now } };

    ghost invariant = { λ r. IndexHolds r.run.now r.index.now };
}

impl<'a> Indexed<'a> {
    // How many states process p has.
    pub fn count(&self, p: u16) -> u16
        requires { p < (head_of self.now.run).processes }
        ensures { result ≡ count (run_in self.now.run) p }
    {
        count_of(self.index, p)
    }

    // The byte place of the record of state k of process p.
    pub fn place(&self, p: u16, k: u16) -> usize
        requires { IsState (run_in self.now.run) p k }
        ensures { result ≡ place_of self.now.run p k }
    {
        place_of(self.index, p, k)
    }

    // What led into it.
    pub fn event(&self, p: u16, k: u16) -> Event
        requires { IsState (run_in self.now.run) p k }
        ensures { result ≡ into (run_in self.now.run) p k }
    {
        event_at(self.run, self.index, p, k)
    }

    // The state at the other end of its send or its receive.
    pub fn partner(&self, p: u16, k: u16) -> u16
        requires { IsState (run_in self.now.run) p k }
        ensures { result ≡ get_or self.now.index (partner_at p k) 0 }
    {
        partner_of(self.index, p, k)
    }

    // Its clock, a number for each of eight processes.
    pub fn clock(&self, p: u16, k: u16) -> &'a [u16]
        requires { IsState (run_in self.now.run) p k }
        ensures { result.now ≡ take 8 (drop (clock_row p k) self.now.index) }
    {
        clock_of(self.index, p, k)
    }

    // The ends of channel h.
    pub fn channel(&self, h: u16) -> Channel
        requires { h < (head_of self.now.run).channels }
        ensures { result ≡ channel_at self.now.run h }
    {
        channel_at(self.run, h)
    }
}
