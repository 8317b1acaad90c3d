// The records of a run, one by one and in words.
use reader::read_at;
use record::layout::{CLOCK_PLACE, VALUES_PLACE};
use record::{Record, StateFields};
use std::{fmt, io};

// A record at its place, and the place after it.
#[derive(Clone, Copy)]
pub struct Placed {
    pub place: usize,
    pub record: Record,
    pub next: usize,
}

pub fn read(run: &[u8], place: usize) -> Option<Placed> {
    let (record, next) = read_at(run, place).ok()?;
    Some(Placed {
        place,
        record,
        next,
    })
}

// The record after one; nothing follows the end.
pub fn following(run: &[u8], here: Placed) -> Option<Placed> {
    match here.record {
        Record::End => None,
        _ => read(run, here.next),
    }
}

// An event by its name where the fields that it doesn't use are zero, else by its number with all of them.
#[derive(Drop)]
struct Event(StateFields);

impl fmt::Display for Event {
    fn fmt<W: fmt::Write>(&self, f: &mut fmt::Formatter<W>) -> fmt::Result {
        let StateFields {
            event,
            channel,
            message,
            stamp,
            ..
        } = self.0;
        let is_bare = channel == 0 && message == 0 && stamp == 0;
        let stamp = stamp.cast_signed();
        match event {
            0 if is_bare => f.write_str("start"),
            1 if is_bare => f.write_str("internal"),
            2 => write!(f, "send channel {channel} message {message} stamp {stamp}"),
            3 if stamp == 0 => write!(f, "receive channel {channel} message {message}"),
            _ => write!(
                f,
                "event {event} channel {channel} message {message} stamp {stamp}"
            ),
        }
    }
}

// The values of a state's record. `Clock` differs in the size of a number alone: one function would take how a number is read as a closure over
// an array, and a bound `Fn` may not name the array's size.
#[derive(Drop)]
struct Values<'a>(&'a [u8]);

impl fmt::Display for Values<'_> {
    fn fmt<W: fmt::Write>(&self, f: &mut fmt::Formatter<W>) -> fmt::Result {
        f.write_str("values")?;
        let (values, _) = self.0.as_chunks();
        for value in values {
            write!(f, " {}", i32::from_le_bytes(*value))?;
        }
        Ok(())
    }
}

// Its clock, a number for each process.
#[derive(Drop)]
struct Clock<'a>(&'a [u8]);

impl fmt::Display for Clock<'_> {
    fn fmt<W: fmt::Write>(&self, f: &mut fmt::Formatter<W>) -> fmt::Result {
        f.write_str("clock")?;
        let (numbers, _) = self.0.as_chunks();
        for number in numbers {
            write!(f, " {}", u16::from_le_bytes(*number))?;
        }
        Ok(())
    }
}

// A process has one state more; which number that is, 1 of a process that doesn't exist.
fn count_up(counts: &mut [u16], process: u16) -> u16 {
    let Some(count) = counts.get_mut(usize::from(process)) else {
        return 1;
    };
    *count = count.saturating_add(1);
    *count
}

// The step gives whole records, so the values and the clock are there.
fn state_line(
    rt: &impl Print,
    run: &[u8],
    here: Placed,
    f: StateFields,
    number: u16,
) -> io::Result<()> {
    let Placed { place, next, .. } = here;
    let bytes = run.get(place..next).unwrap_or_default();
    let values = Values(bytes.get(VALUES_PLACE..CLOCK_PLACE).unwrap_or_default());
    let clock = Clock(bytes.get(CLOCK_PLACE..).unwrap_or_default());
    let (process, event) = (f.process, Event(f));
    println!(rt; "{place} process {process} state {number} {event} {values} {clock}")
}

// The line of a record, beside the number of states of each process so far.
pub fn line(rt: &impl Print, run: &[u8], here: Placed, counts: &mut [u16]) -> io::Result<()> {
    let place = here.place;
    match here.record {
        Record::Head(head) => {
            println!(rt;
                "{place} run processes {} channels {}",
                head.processes, head.channels
            )
        }
        Record::Channel(c) => {
            println!(rt; "{place} channel {} from {} to {}", c.number, c.from, c.to)
        }
        Record::State(f) => state_line(rt, run, here, f, count_up(counts, f.process)),
        Record::End => println!(rt; "{place} end"),
    }
}
