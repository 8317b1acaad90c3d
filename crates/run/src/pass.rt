// The pass over a run's records: refusals 1 to 10, and an index of the states.
ghost use Rattle.std.specs.Prelude.{◌≡◌, ◌≤◌, length, replicate};
ghost use Rattle.run.specs.Index.{index_size};
ghost use Rattle.record.specs.Record.{head_of};
ghost use Rattle.record.specs.Inner.{read_records};
ghost use Rattle.run.specs.Read.{run_pass, read_of};
ghost use Rattle.run.specs.Inner.{StateRoomy, StateNoted, RunPassed};

use crate::index::keep;
use record::reading::{check_end, check_length, head_of, step_beside};
use record::reasons::at_fault;
use record::{File, Head, Record, Refusal};
use states::judge::check_record;

// A state is kept; of any other record nothing is.
fn note(index: &mut [u16], item: Record, at: usize)
    requires { (length index.old ≡ index_size) × StateRoomy item index.old × (at ≤ 65535) }
    ensures { StateNoted item at index.old index.new }
{
    if let Record::State(f) = item {
        keep(index, f.process, at);
    }
}

// Record by record from the front. Where the next one stands is known only behind this one, and each may end the pass: a loop, and no iterator. The loop of
// `condition::pass` is another: it counts what is owed, which one loop for both would have to be given as six functions.
fn read_records(run: &[u8], head: Head, index: &mut [u16]) -> Result<Head, Refusal>
    requires { (length run.now ≤ 65535) × (head ≡ head_of run.now) × (index.old ≡ replicate index_size 0) }
    ensures { RunPassed run.now (read_records (run_pass run.now)) result index.new }
{
    let mut at: usize = 0;
    loop {
        let (item, next) = step_beside(run, head, at)?;
        let check = check_record(run, head, &index[..8], at, item);
        at_fault(File::Run, at, check)?;
        if let Record::End = item {
            check_end(File::Run, run, next)?;
            return Ok(head);
        }
        note(index, item, at);
        at = next;
    }
}

// The whole pass: a run's head with its states in the lent index, which comes as zeros, or the first refusal with its place.
#[tactic(auto, unfolding(crate::specs::Read::read_of))]
pub fn read_run(run: &[u8], index: &mut [u16]) -> Result<Head, Refusal>
    requires { index.old ≡ replicate index_size 0 }
    ensures { RunPassed run.now (read_of run.now) result index.new }
{
    check_length(File::Run, run)?;
    read_records(run, head_of(run), index)
}
