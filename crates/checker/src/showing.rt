// The bytes shown for an answer.
ghost use Rattle.std.specs.Prelude.{◌≡◌};
ghost use Rattle.reader.specs.Shown.{IsPart};
ghost use Rattle.checker.specs.Shown.{part_for};

use reader::Part;
use reader::shown::{front_part, refused_bytes, refused_part};
use record::Refusal;
use search::Outcome;

// Which part of the run or of the condition is shown; the run's empty front part where nothing is refused.
pub fn shown_part<'a>(run: &'a [u8], cond: &'a [u8], answer: Result<Outcome, Refusal>) -> Part
    ensures { result ≡ part_for run.now cond.now answer }
{
    match answer {
        Err(refusal) => refused_part(run, cond, refusal),
        Ok(_) => front_part(),
    }
}

// That part itself.
pub fn shown<'a>(run: &'a [u8], cond: &'a [u8], answer: Result<Outcome, Refusal>) -> &'a [u8]
    ensures { IsPart run.entry cond.entry (part_for run.now cond.now answer) result }
{
    match answer {
        Err(refusal) => refused_bytes(run, cond, refusal),
        Ok(_) => &run[..0],
    }
}
