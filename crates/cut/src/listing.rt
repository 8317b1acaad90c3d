// Rows of numbers written into the first lent places: a cut, and what is in transit on each channel there.
ghost use Rattle.std.specs.Prelude.{◌≡◌, ◌≤◌, ◌<◌, length};
ghost use Rattle.run.specs.Said.{run_in};
ghost use Rattle.cut.specs.Entered.{Listable, with_lowest};
ghost use Rattle.cut.specs.Listing.{Wrote, WroteLowest, on_each};

use run::indexed::Indexed;
use transit::Load;
use transit::scan::{count_in, load_on};

pub fn write(row: &[u16], lent: &mut [u16])
    requires { length row.now ≤ length lent.old }
    ensures { Wrote row.now lent.old lent.new }
{
    lent[..row.len()].copy_from_slice(row);
}

// The place of a stamp is left as it was where there is none.
fn enter(load: Option<Load>, i: usize, stamps: &mut [i32])
    requires { i < length stamps.old }
    ensures { stamps.new ≡ with_lowest load i stamps.old }
{
    if let Some(load) = load {
        stamps[i] = load.lowest;
    }
}

// How many messages are on each channel, and the lowest of their stamps.
pub fn list_channels(
    run: &Indexed<'_>,
    cut: &[u16],
    channels: u16,
    counts: &mut [u16],
    stamps: &mut [i32],
)
    requires { Listable run.now.run cut.now channels counts.old stamps.old }
    ensures { Wrote (on_each (run_in run.now.run) cut.now) counts.old counts.new
        × WroteLowest (run_in run.now.run) cut.now channels stamps.old stamps.new }
{
    // That the index holds is known from here on: the head's channels are all that the run has.
    let _ = &run.index;
    for channel in 0..channels {
        let i = channel as usize;
        let load = load_on(run, cut, channel);
        counts[i] = count_in(load) as u16;
        enter(load, i, stamps);
    }
}
