// A condition, record by record up to the first refusal. It is judged beside the most that a run may have.
use crate::refusals;
use condition::pass::read_condition;
use condition::reading::step;
use condition::{Clause, Item, Test};
use record::Head;
use std::{fmt, io, iter};

// What a number is called, else the number itself behind what it is of.
#[derive(Drop)]
struct Named<'a> {
    words: Option<&'a str>,
    of: &'a str,
    number: u16,
}

impl fmt::Display for Named<'_> {
    fn fmt<W: fmt::Write>(&self, f: &mut fmt::Formatter<W>) -> fmt::Result {
        match self.words {
            Some(words) => f.write_str(words),
            None => write!(f, "{} {}", self.of, self.number),
        }
    }
}

fn comparison(number: u16) -> Named<'static> {
    let words = match number {
        1 => Some("equal"),
        2 => Some("other than"),
        3 => Some("at most"),
        4 => Some("at least"),
        _ => None,
    };
    Named {
        words,
        of: "comparison",
        number,
    }
}

fn test(number: u16) -> Named<'static> {
    let words = match number {
        1 => Some("count at most"),
        2 => Some("count at least"),
        3 => Some("count exactly"),
        4 => Some("some stamp equals"),
        5 => Some("no stamp equals"),
        6 => Some("every stamp at least"),
        7 => Some("some stamp at most"),
        8 => Some("count odd"),
        9 => Some("count other than"),
        _ => None,
    };
    Named {
        words,
        of: "test",
        number,
    }
}

// A stamp is signed, a count isn't.
fn operand(clause: Test) -> i64 {
    match clause.test {
        4..=7 => i64::from(clause.operand.cast_signed()),
        _ => i64::from(clause.operand),
    }
}

// A record in words.
#[derive(Drop)]
struct Words(Item);

impl fmt::Display for Words {
    fn fmt<W: fmt::Write>(&self, f: &mut fmt::Formatter<W>) -> fmt::Result {
        match self.0 {
            Item::Head(clauses) => write!(f, "condition clauses {clauses}"),
            Item::Clause(Clause::Local(local)) => {
                let (process, value) = (local.process, local.value);
                let (comparison, constant) = (comparison(local.comparison), local.constant);
                write!(f, "process {process} value {value} {comparison} {constant}")
            }
            Item::Clause(Clause::Channel(clause)) => {
                let (test, operand) = (test(clause.test), operand(clause));
                write!(f, "channel {} {test} {operand}", clause.channel)
            }
            Item::End => f.write_str("end"),
        }
    }
}

// A record at its place, the place after it, and how many clauses are owed there.
#[derive(Clone, Copy)]
struct Placed {
    place: usize,
    item: Item,
    next: usize,
    owed: u16,
}

fn read(cond: &[u8], place: usize, owed: u16) -> Option<Placed> {
    let (item, next) = step(cond, place, owed).ok()?;
    let owed = match item {
        Item::Head(clauses) => clauses,
        _ => owed.saturating_sub(1),
    };
    Some(Placed {
        place,
        item,
        next,
        owed,
    })
}

// The record after one; nothing follows the end.
fn following(cond: &[u8], here: Placed) -> Option<Placed> {
    match here.item {
        Item::End => None,
        _ => read(cond, here.next, here.owed),
    }
}

// All records up to one that begins at the last place; a record has a byte at least. `runs` has the same loop: one of both would take the first record,
// what follows, the place and the line by four closures, which is no plainer.
fn lines(rt: &impl Print, cond: &[u8], last: usize) -> io::Result<()> {
    let first = read(cond, 0, 0);
    for here in iter::successors(first, |here| following(cond, *here)).take(cond.len()) {
        println!(rt; "{} {}", here.place, Words(here.item))?;
        if last <= here.place {
            break;
        }
    }
    Ok(())
}

pub fn show(rt: &impl Print, cond: &[u8]) -> io::Result<()> {
    let mut places = [0u16; 32];
    let most = Head {
        processes: 8,
        channels: 16,
    };
    match read_condition(cond, most, &mut places) {
        Ok(_) => lines(rt, cond, cond.len()),
        Err(refusal) => {
            lines(rt, cond, refusal.place)?;
            refusals::show(rt, cond, refusal)
        }
    }
}
