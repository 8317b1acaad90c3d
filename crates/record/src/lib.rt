// Bytes to records: numbers, the layout, refusals, and the reading step. Nothing here needs the records that came before.
#![tactic(auto)]

pub mod bytes;
pub mod kind;
pub mod layout;
pub mod reading;
pub mod reasons;

ghost use Rattle.std.specs.Prelude.{Some};
ghost use Rattle.record.specs.Reason.{file_word};

use crate::reasons::Reason;
use std::fmt;

// The file at fault.
#[derive(Clone, Copy)]
pub enum File {
    Run,
    Condition,
}

impl fmt::Display for File {
    ghost output = { λ file. Some (file_word file) };

    fn fmt<W: fmt::Write>(&self, f: &mut fmt::Formatter<W>) -> fmt::Result {
        f.write_str(match self {
            File::Run => "run",
            File::Condition => "cond",
        })
    }
}

// Which file, why, the byte place of the record, and whether that record stands after the end.
#[derive(Clone, Copy)]
pub struct Refusal {
    pub file: File,
    pub reason: Reason,
    pub place: usize,
    pub after: bool,
}

#[derive(Clone, Copy)]
pub struct Head {
    pub processes: u16,
    pub channels: u16,
}

#[derive(Clone, Copy)]
pub struct ChannelFields {
    pub number: u16,
    pub from: u16,
    pub to: u16,
}

// The fields of a state record as they stand there. The event stays a number: an unknown one is refused (8) only behind 7 and 5.
#[derive(Clone, Copy)]
pub struct StateFields {
    pub process: u16,
    pub event: u16,
    pub channel: u16,
    pub message: u32,
    pub stamp: u32,
}

#[derive(Clone, Copy)]
pub enum Record {
    Head(Head),
    Channel(ChannelFields),
    State(StateFields),
    End,
}
