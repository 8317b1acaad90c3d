// A run, record by record up to the first refusal, and what more there is to say of that.
use crate::records::{following, read};
use crate::{circles, records, refusals};
use circles::{Spot, clock};
use files::words::Numbers;
use judging::whole::judge_run;
use record::reading::head_of;
use record::reasons::Reason;
use record::{Record, Refusal, StateFields};
use run::index::INDEX_SIZE;
use std::{io, iter};

// All records up to one that begins at the last place; a record has a byte at least.
fn lines(rt: &impl Print, run: &[u8], last: usize, counts: &mut [u16]) -> io::Result<()> {
    let first = read(run, 0);
    for here in iter::successors(first, |here| following(run, *here)).take(run.len()) {
        records::line(rt, run, here, counts)?;
        if last <= here.place {
            break;
        }
    }
    Ok(())
}

// Whether it is a state with this event and this message.
fn is_like(record: Record, f: StateFields) -> bool {
    match record {
        Record::State(g) => {
            g.event == f.event && g.channel == f.channel && g.message == f.message
        }
        _ => false,
    }
}

// The first place ahead of the last at which the same is sent, or received, as there.
fn first_like(run: &[u8], last: usize, f: StateFields) -> Option<usize> {
    iter::successors(read(run, 0), |here| following(run, *here))
        .take(run.len())
        .take_while(|here| here.place < last)
        .find(|here| is_like(here.record, f))
        .map(|here| here.place)
}

// 11: where the other send or receive stands.
fn pairing_line(rt: &impl Print, run: &[u8], place: usize, f: StateFields) -> io::Result<()> {
    match first_like(run, place, f) {
        Some(first) => println!(rt; "{place} the other at {first}"),
        None => println!(rt; "{place} no send"),
    }
}

// 13: the clock that the rule gives a state.
fn clock_line(
    rt: &impl Print,
    index: &[u16],
    processes: u16,
    place: usize,
    spot: Spot,
) -> io::Result<()> {
    let clock = clock(index, spot).and_then(|clock| clock.get(..usize::from(processes)));
    println!(rt;
        "{place} clock by the rule{}",
        Numbers(clock.unwrap_or_default())
    )
}

// What more is said of 11, 12 and 13, whose record is a state.
fn more(
    rt: &impl Print,
    run: &[u8],
    index: &[u16],
    counts: &[u16],
    refusal: Refusal,
    f: StateFields,
) -> io::Result<()> {
    let (process, place) = (f.process, refusal.place);
    // A state of a process that doesn't exist is refused by another number.
    let Some(&number) = counts.get(usize::from(process)) else {
        return Ok(());
    };
    let spot = Spot { process, number };
    match refusal.reason {
        Reason::Pairing => pairing_line(rt, run, place, f),
        Reason::Circle => circles::show(rt, run, index, spot),
        Reason::Clock => clock_line(rt, index, head_of(run).processes, place, spot),
        _ => Ok(()),
    }
}

fn refused(
    rt: &impl Print,
    run: &[u8],
    index: &[u16],
    counts: &[u16],
    refusal: Refusal,
) -> io::Result<()> {
    refusals::show(rt, run, refusal)?;
    if let Some(Record::State(f)) = read(run, refusal.place).map(|here| here.record) {
        more(rt, run, index, counts, refusal, f)?;
    }
    Ok(())
}

pub fn show(rt: &impl Print, run: &[u8]) -> io::Result<()> {
    let mut index = [0u16; INDEX_SIZE];
    let mut counts = [0u16; 8];
    match judge_run(run, &mut index) {
        Ok(_) => lines(rt, run, run.len(), &mut counts),
        Err(refusal) => {
            lines(rt, run, refusal.place, &mut counts)?;
            refused(rt, run, &index, &counts, refusal)
        }
    }
}
