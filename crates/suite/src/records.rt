// What stands in a run at a place, by the reader.
use crate::printing::print_verdict;
use record::{Record, Refusal};
use std::io;

fn record_line(rt: &impl Print, record: Record, next: usize) -> io::Result<()> {
    match record {
        Record::Head(head) => {
            println!(rt;
                "record head {} {} next {next}",
                head.processes, head.channels
            )
        }
        Record::Channel(line) => {
            println!(rt;
                "record channel {} {} {} next {next}",
                line.number, line.from, line.to
            )
        }
        Record::State(f) => {
            let (process, event, channel) = (f.process, f.event, f.channel);
            println!(rt;
                "record state {process} {event} {channel} {} {} next {next}",
                f.message, f.stamp
            )
        }
        Record::End => println!(rt; "record end next {next}"),
    }
}

fn step_at(run: &[u8], place: u16) -> Result<(Record, usize), Refusal> {
    match place {
        0 => reader::first(run),
        _ => reader::read_at(run, place as usize),
    }
}

pub fn answer(rt: &impl Print, run: &[u8], place: u16) -> io::Result<()> {
    match step_at(run, place) {
        Ok((record, next)) => record_line(rt, record, next),
        Err(refusal) => print_verdict(rt, Err(refusal)),
    }
}
