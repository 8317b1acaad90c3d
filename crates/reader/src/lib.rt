// A reader of the run: the lent bytes together with a place. Each method is thin, and leaves the work to the reading step over bytes and a place
// apart. `shown` gives the bytes of a refused record.
#![tactic(auto)]

pub mod shown;

ghost use Rattle.std.specs.Prelude.{◌≡◌};
ghost use Rattle.record.specs.Record.{step_at};

use record::reading::step;
use record::{File, Record, Refusal};

#[derive(Clone, Copy)]
pub struct Reader<'a> {
    pub run: &'a [u8],
    pub place: usize,
}

// A part of one of the two files: from a place on, so many bytes.
#[derive(Clone, Copy)]
pub struct Part {
    pub file: File,
    pub place: usize,
    pub count: usize,
}

impl<'a> Reader<'a> {
    // A reader at a place; the front is place 0.
    pub fn new(run: &'a [u8], place: usize) -> Reader<'a>
        ensures { (result.run ≡ run.entry) × (result.place ≡ place) }
    {
        Reader { run, place }
    }

    pub fn place_of(self) -> usize
        ensures { result ≡ self.entry.place }
    {
        self.place
    }

    // The record at the reader's place with the place after it, or else the refusal.
    pub fn next(self) -> Result<(Record, usize), Refusal>
        ensures { result ≡ step_at self.entry.run.now self.entry.place }
    {
        step(self.run, self.place)
    }

    // The same bytes at another place.
    pub fn moved(self, place: usize) -> Reader<'a>
        ensures { (result.run ≡ self.entry.run) × (result.place ≡ place) }
    {
        Reader { place, ..self }
    }
}

// The same reading by way of a reader, for callers that hold none: its parameters are plain, so their proofs need no walk.
pub fn read_at(run: &[u8], place: usize) -> Result<(Record, usize), Refusal>
    ensures { result ≡ step_at run.now place }
{
    Reader::new(run, place).next()
}

// The record at the front.
pub fn first(run: &[u8]) -> Result<(Record, usize), Refusal>
    ensures { result ≡ step_at run.now 0 }
{
    read_at(run, 0)
}
