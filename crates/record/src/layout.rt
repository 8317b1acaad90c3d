// The layout of a run: the head, the channels, the states, the end. Every place and length in it is said here; specs/Layout.antt has the same names.
ghost use Rattle.std.specs.Prelude.{◌≡◌};
ghost use Rattle.record.specs.Layout.{channel_place, value_place, state_length};
ghost use Rattle.record.specs.Inner.{states_place};

use crate::Head;

pub const HEAD_LENGTH: usize = 10;

pub const CHANNEL_LENGTH: usize = 10;

// How many values a state has, four bytes each.
pub const VALUE_COUNT: u16 = 4;

// Behind the place of a state's record: where its values begin, and where its clock begins.
pub const VALUES_PLACE: usize = 18;

pub const CLOCK_PLACE: usize = VALUES_PLACE + 4 * VALUE_COUNT as usize;

// The record of channel h.
pub fn channel_place(h: u16) -> usize
    ensures { result ≡ channel_place h }
{
    HEAD_LENGTH + CHANNEL_LENGTH * (h as usize)
}

// The first state's record, behind the channels.
pub(crate) fn states_place(head: Head) -> usize
    ensures { result ≡ states_place head }
{
    channel_place(head.channels)
}

// Value v, behind the place of a state's record.
pub fn value_place(v: u16) -> usize
    ensures { result ≡ value_place v }
{
    VALUES_PLACE + 4 * (v as usize)
}

// A state's record, whose clock has two bytes a process.
pub(crate) fn state_length(head: Head) -> usize
    ensures { result ≡ state_length head }
{
    CLOCK_PLACE + 2 * (head.processes as usize)
}
