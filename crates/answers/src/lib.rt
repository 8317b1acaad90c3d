// The lines of an answer, made in a lent buffer. What they are is said in `specs/Lines.antt`. Each call first has the lines made where there is no room,
// which tells how long they are: so nothing is written into a buffer that is too short.
#![tactic(auto)]

mod channels;

ghost use Rattle.std.specs.Prelude.{min, ◌≡◌, List, ℕ, length};
ghost use Rattle.writing.specs.Stored.{Put};
ghost use Rattle.answers.specs.Lines.{answer_lines, count_lines, found_lines, refused_line, verdict_lines};
ghost use Rattle.answers.specs.Made.{MadeOf};

use channels::{channel_lines, count_line};
use record::{File, Refusal};
use search::Outcome;
use transit::Load;
use writing::Lines;

#[tactic(auto, unfolding(crate::specs::Lines::refused_line, crate::specs::Lines::refused_word, writing::specs::Text::bytes))]
fn refused(refusal: Refusal, lines: &mut Lines)
    ensures { Put (refused_line refusal) lines.old lines.new }
{
    let number = u16::from(refusal.reason) as usize;
    let place = refusal.place;
    let file = refusal.file;
    match file {
        File::Run => lines.pair_line(b"refused run", number, place),
        File::Condition => lines.pair_line(b"refused cond", number, place),
    }
}

fn found(cut: &[u16], counts: &[u16], stamps: &[i32], lines: &mut Lines)
    ensures { Put (found_lines cut.now counts.now stamps.now) lines.old lines.new }
{
    lines.text(b"found\n");
    lines.row_lines(b"state", cut);
    channel_lines(counts, stamps, lines);
}

#[tactic(auto, unfolding(crate::specs::Lines::answer_lines, writing::specs::Text::bytes))]
fn put_answer(
    answer: Result<Outcome, Refusal>,
    cut: &[u16],
    counts: &[u16],
    stamps: &[i32],
    lines: &mut Lines,
)
    ensures { Put (answer_lines answer cut.now counts.now stamps.now) lines.old lines.new }
{
    match answer {
        Ok(Outcome::Found) => found(cut, counts, stamps, lines),
        Ok(Outcome::NoCut) => lines.text(b"none\n"),
        Err(refusal) => refused(refusal, lines),
    }
}

#[tactic(auto, unfolding(crate::specs::Lines::verdict_lines, writing::specs::Text::bytes))]
fn put_verdict(verdict: Result<bool, Refusal>, lines: &mut Lines)
    ensures { Put (verdict_lines verdict) lines.old lines.new }
{
    match verdict {
        Ok(true) => lines.text(b"yes\n"),
        Ok(false) => lines.text(b"no\n"),
        Err(refusal) => refused(refusal, lines),
    }
}

#[tactic(auto, unfolding(crate::specs::Lines::count_lines, writing::specs::Text::bytes))]
fn put_count(count: Result<Option<Load>, Refusal>, lines: &mut Lines)
    ensures { Put (count_lines count) lines.old lines.new }
{
    match count {
        Ok(None) => lines.text(b"empty\n"),
        Ok(Some(load)) => count_line(load.count, load.lowest, lines),
        Err(refusal) => refused(refusal, lines),
    }
}

// The lines that a call puts: how many bytes they have at the front of the buffer, or none where it is too short and as it was.
fn made<F: Fn(&mut Lines)>(put: F, buffer: &mut [u8]) -> Option<usize>
    requires { F.IsAlwaysCallable put }
    ensures { (bytes : List ℕ) → ((l : _) (u : _) (l' : _) → F.post put l u l' → Put bytes l.now l'.now) → MadeOf bytes buffer.old buffer.new result }
{
    let mut nowhere = [0u8; 0];
    let mut lines = Lines::new(&mut nowhere);
    put(&mut lines);
    let n = lines.end();
    if buffer.len() < n {
        return None;
    }
    put(&mut Lines::new(buffer));
    Some(n)
}

// The answer of the search with the state of each process at the cut, and the number of messages on each channel there with the lowest stamp among them.
pub fn answer(
    answer: Result<Outcome, Refusal>,
    cut: &[u16],
    counts: &[u16],
    stamps: &[i32],
    buffer: &mut [u8],
) -> Option<usize>
    ensures { MadeOf (answer_lines answer cut.now counts.now stamps.now) buffer.old buffer.new result }
{
    made(|room| put_answer(answer, cut, counts, stamps, room), buffer)
}

pub fn verdict(verdict: Result<bool, Refusal>, buffer: &mut [u8]) -> Option<usize>
    ensures { MadeOf (verdict_lines verdict) buffer.old buffer.new result }
{
    made(|room| put_verdict(verdict, room), buffer)
}

pub fn count(count: Result<Option<Load>, Refusal>, buffer: &mut [u8]) -> Option<usize>
    ensures { MadeOf (count_lines count) buffer.old buffer.new result }
{
    made(|room| put_count(count, room), buffer)
}

// How many numbers of a row stand there where n were to be written.
pub fn filled(n: u16, row: &[u16]) -> usize
    ensures { result ≡ min n (length row.now) }
{
    (n as usize).min(row.len())
}
