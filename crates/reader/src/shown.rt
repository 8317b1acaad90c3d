// The bytes shown for a refusal: a part of the run or of the condition, whichever is at fault.
ghost use Rattle.std.specs.Prelude.{◌≡◌};
ghost use Rattle.reader.specs.Shown.{file_of, has_record, shown_count, front, part_of, IsPart};

use crate::Part;
use record::bytes::{left_from, u16_at};
use record::reasons::Reason;
use record::{File, Refusal};

// Whether a refusal for this reason is of a record, and so has bytes to show.
fn has_record(reason: Reason) -> bool
    ensures { result ≡ has_record reason }
{
    !matches!(
        reason,
        Reason::TooLong | Reason::NoRoom | Reason::WrongCut | Reason::NoChannel
    )
}

// The run's empty front part.
pub fn front_part() -> Part
    ensures { result ≡ front }
{
    Part {
        file: File::Run,
        place: 0,
        count: 0,
    }
}

fn bytes_of<'a>(run: &'a [u8], cond: &'a [u8], file: File) -> &'a [u8]
    ensures { result ≡ file_of file run.entry cond.entry }
{
    match file {
        File::Run => run,
        File::Condition => cond,
    }
}

// A record after the end, or one without the two bytes of a length, states none that counts: all that is left is shown.
#[tactic(auto, unfolding(crate::specs::Shown::shown_count))]
fn count_of(bytes: &[u8], at: usize, after: bool) -> usize
    ensures { result ≡ shown_count bytes.now at after }
{
    let left = left_from(bytes, at);
    if after | (left < 2) {
        return left;
    }
    left.min(u16_at(bytes, at) as usize)
}

// Which part is shown; the run's empty front part where the refusal is of no record.
pub fn refused_part<'a>(run: &'a [u8], cond: &'a [u8], refusal: Refusal) -> Part
    ensures { result ≡ part_of run.now cond.now refusal }
{
    if !has_record(refusal.reason) {
        return front_part();
    }
    let file = refusal.file;
    let bytes = bytes_of(run, cond, file);
    let count = count_of(bytes, refusal.place, refusal.after);
    let place = refusal.place.min(bytes.len());
    Part { file, place, count }
}

// That part itself, of one of two lent slices.
pub fn refused_bytes<'a>(run: &'a [u8], cond: &'a [u8], refusal: Refusal) -> &'a [u8]
    ensures { IsPart run.entry cond.entry (part_of run.now cond.now refusal) result }
{
    let part = refused_part(run, cond, refusal);
    let file = part.file;
    let bytes = bytes_of(run, cond, file);
    let from = part.place;
    let to = part.place + part.count;
    &bytes[from..to]
}
