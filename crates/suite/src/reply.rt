// The answer to one question.
use crate::input::Case;
use crate::printing::{places_line, print_answer, print_count, print_verdict, stamps_line};
use crate::{records, shown};
use record::reading::head_of;
use std::io;

// What a lent place holds before the search shows whether the search has written there.
fn lend(places: &mut [u16]) {
    for (place, number) in places.iter_mut().zip(60000..) {
        *place = number;
    }
}

// The same of a row of stamps, which count down.
fn lend_stamps(stamps: &mut [i32]) {
    for (stamp, number) in stamps.iter_mut().zip((i32::MIN..=-60000).rev()) {
        *stamp = number;
    }
}

fn search(rt: &impl Print, run: &[u8], cond: &[u8], places: &mut [u16]) -> io::Result<()> {
    let mut counts = [0u16; 16];
    let mut stamps = [0i32; 16];
    lend(places);
    let answer = checker::finding::first_cut_listed(run, cond, places, &mut counts, &mut stamps);
    print_answer(rt, run, places, &counts, &stamps, answer)?;
    places_line(rt, places)
}

// The channels at the cut that stands in the first places; rows of zeros where they aren't told.
fn channels(run: &[u8], places: &[u16], counts: &mut [u16], stamps: &mut [i32]) {
    let n = answers::filled(head_of(run).processes, places);
    let _ = questions::listing::messages_on_each(run, &places[..n], counts, stamps);
}

// The same in two calls, one for the cut and one for the channels.
fn search_apart(rt: &impl Print, run: &[u8], cond: &[u8], places: &mut [u16]) -> io::Result<()> {
    let mut counts = [0u16; 16];
    let mut stamps = [0i32; 16];
    lend(places);
    let answer = checker::finding::first_cut(run, cond, places);
    channels(run, places, &mut counts, &mut stamps);
    print_answer(rt, run, places, &counts, &stamps, answer)?;
    places_line(rt, places)
}

// How many messages are on each channel at a given cut, and the lowest of their stamps, into lent places that may be too few.
fn each_in(
    rt: &impl Print,
    run: &[u8],
    cut: &[u16],
    counts: &mut [u16],
    stamps: &mut [i32],
) -> io::Result<()> {
    lend(counts);
    lend_stamps(stamps);
    let told = questions::listing::messages_on_each(run, cut, counts, stamps);
    match told {
        Ok(()) => println!(rt; "counted")?,
        Err(refusal) => print_verdict(rt, Err(refusal))?,
    }
    places_line(rt, counts)?;
    stamps_line(rt, stamps)
}

// The low byte of `extra` says how many places are lent for the counts, its high byte how many for the stamps.
fn each(rt: &impl Print, run: &[u8], cut: &[u16], extra: u16) -> io::Result<()> {
    let mut counts = [0u16; 24];
    let mut stamps = [0i32; 24];
    let [n, m] = extra.to_le_bytes();
    let n = counts.len().min(usize::from(n));
    let m = stamps.len().min(usize::from(m));
    each_in(rt, run, cut, &mut counts[..n], &mut stamps[..m])
}

// A case lends at most 24 places.
pub fn answer<'a>(rt: &impl Print, case: Case<'a>) -> io::Result<()> {
    let Case {
        question,
        extra,
        cut,
        run,
        cond,
    } = case;
    let mut room = [0u16; 24];
    let n = room.len().min(usize::from(extra));
    let places = &mut room[..n];
    // The question is the input's number: here alone it is taken apart.
    match question {
        1 => search(rt, run, cond, places),
        2 => print_verdict(rt, questions::consistency::is_consistent(run, cut)),
        3 => print_verdict(rt, questions::satisfaction::satisfies(run, cond, cut)),
        4 => print_count(rt, questions::messages::messages_on(run, cut, extra)),
        5 => shown::answer(rt, run, cond, places),
        6 => search_apart(rt, run, cond, places),
        7 => each(rt, run, cut, extra),
        _ => records::answer(rt, run, extra),
    }
}
