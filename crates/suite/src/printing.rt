// What the suite prints: the lines of an answer, each answer in one write, and rows of numbers.
use files::words::{Numbers, print_made};
use record::Refusal;
use record::reading::head_of;
use search::Outcome;
use std::io;
use transit::Load;

pub fn print_answer(
    rt: &impl Print,
    run: &[u8],
    places: &[u16],
    counts: &[u16],
    stamps: &[i32],
    answer: Result<Outcome, Refusal>,
) -> io::Result<()> {
    let head = head_of(run);
    let n = answers::filled(head.processes, places);
    let m = answers::filled(head.channels, counts);
    print_made(
        rt,
        |lines| answers::answer(answer, &places[..n], &counts[..m], stamps, lines),
    )
}

pub fn print_verdict(rt: &impl Print, verdict: Result<bool, Refusal>) -> io::Result<()> {
    print_made(rt, |lines| answers::verdict(verdict, lines))
}

pub fn print_count(rt: &impl Print, count: Result<Option<Load>, Refusal>) -> io::Result<()> {
    print_made(rt, |lines| answers::count(count, lines))
}

pub fn places_line(rt: &impl Print, places: &[u16]) -> io::Result<()> {
    println!(rt; "places{}", Numbers(places))
}

pub fn stamps_line(rt: &impl Print, stamps: &[i32]) -> io::Result<()> {
    println!(rt; "stamps{}", Numbers(stamps))
}
