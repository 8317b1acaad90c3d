// The states of a circle, by the index as the judging leaves it: a state that the clocks didn't reach has 0 for its own number.
ghost use Rattle.std.specs.Prelude.{◌≡◌, true, length};
ghost use Rattle.run.specs.Index.{index_size, HasSlot};

use record::layout::channel_place;
use run::index::{INDEX_SIZE, clock_of, partner_of, place_of};
use std::{io, iter};

// A state by its process and its number.
#[derive(Clone, Copy, PartialEq, Eq)]
pub struct Spot {
    pub process: u16,
    pub number: u16,
}

// Going back this often comes to a circle and around it, wherever it begins: there are no more states.
const STATES: usize = 4096;

// Whether the index has a row for the state.
fn has_slot(index: &[u16], spot: Spot) -> bool
    ensures { result ≡ true → (length index.now ≡ index_size) × HasSlot spot.process spot.number }
{
    index.len() == INDEX_SIZE && spot.process < 8 && (1..=512).contains(&spot.number)
}

// Its clock, a number for each of eight processes.
pub fn clock<'a>(index: &'a [u16], spot: Spot) -> Option<&'a [u16]> {
    has_slot(index, spot).then(|| clock_of(index, spot.process, spot.number))
}

fn place(index: &[u16], spot: Spot) -> Option<usize> {
    has_slot(index, spot).then(|| place_of(index, spot.process, spot.number))
}

// The state at the other end of its send or its receive.
fn partner(index: &[u16], spot: Spot) -> Option<u16> {
    has_slot(index, spot).then(|| partner_of(index, spot.process, spot.number))
}

// A number of two bytes, that far behind a place.
fn short_at(run: &[u8], place: usize, behind: usize) -> Option<u16> {
    let bytes = run.get(place..)?.get(behind..)?.first_chunk()?;
    Some(u16::from_le_bytes(*bytes))
}

// The process that sends on the channel of the receive at a place. Only these two numbers are read: whole records, at each of up to 12,288 steps back,
// make all that `look` does for a small run a quarter dearer.
fn sender(run: &[u8], place: usize) -> Option<u16> {
    let channel = short_at(run, place, 8)?;
    short_at(run, channel_place(channel), 6)
}

// The state ahead of the send that is received there.
fn ahead(run: &[u8], index: &[u16], spot: Spot) -> Option<Spot> {
    Some(Spot {
        process: sender(run, place(index, spot)?)?,
        number: partner(index, spot)?.checked_sub(1)?,
    })
}

// Whether the clocks reached it.
fn is_reached(index: &[u16], spot: Spot) -> bool {
    clock(index, spot).and_then(|clock| clock.get(usize::from(spot.process))) != Some(&0)
}

// A state that is before this one, and on a circle or after one: the state ahead of it in its process, or else the one ahead of the send.
fn back(run: &[u8], index: &[u16], spot: Spot) -> Option<Spot> {
    let before = Spot {
        process: spot.process,
        number: spot.number.saturating_sub(1),
    };
    if 1 < spot.number && !is_reached(index, before) {
        return Some(before);
    }
    ahead(run, index, spot)
}

// Where one is after going back so often that it is a circle.
fn on_circle(run: &[u8], index: &[u16], spot: Spot) -> Option<Spot> {
    (0..STATES).try_fold(spot, |here, _| back(run, index, here))
}

// The state of the circle with the lowest place.
fn lowest(run: &[u8], index: &[u16], spot: Spot) -> Option<Spot> {
    iter::successors(Some(spot), |here| back(run, index, *here))
        .take(STATES)
        .min_by_key(|here| place(index, *here))
}

// Backward around the circle, from its state with the lowest place on.
fn around(rt: &impl Print, run: &[u8], index: &[u16], low: Spot) -> io::Result<()> {
    let next = |here: &Spot| back(run, index, *here).filter(|next| *next != low);
    for spot in iter::successors(Some(low), next).take(STATES) {
        let Spot { process, number } = spot;
        if let Some(place) = place(index, spot) {
            println!(rt; "{place} circle process {process} state {number}")?;
        }
    }
    Ok(())
}

// The circle that one comes to going back from a state, from its lowest place on.
pub fn show(rt: &impl Print, run: &[u8], index: &[u16], spot: Spot) -> io::Result<()> {
    let low = on_circle(run, index, spot).and_then(|spot| lowest(run, index, spot));
    match low {
        Some(low) => around(rt, run, index, low),
        None => Ok(()),
    }
}
