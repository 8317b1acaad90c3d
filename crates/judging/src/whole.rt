// The judging of a whole run: the pass, then 11, 12 and 13 over all records, each at its first record in file order.
ghost use Rattle.std.specs.Prelude.{◌≡◌, ◌≤◌, replicate};
ghost use Rattle.record.specs.Record.{head_of};
ghost use Rattle.run.specs.Index.{Listed, Matched, Fresh, index_size, partners_part};
ghost use Rattle.judged.specs.Judged.{Judged};
ghost use Rattle.judged.specs.Inner.{NewlyListed, PairingJudged, Clocked, next_of, Undone, ProcessRoom, CircleJudged, ClockJudged, Ready};

use crate::faults::earliest;
use order::{clock_faults, order_all};
use pairing::pair_all;
use record::reasons::{Reason, refusal_of};
use record::{File, Head, Refusal};
use run::index::count_of;
use run::pass::read_run;

// The first record in file order that is a second send or receive, or a receive with no send; where there is none, the partners.
fn first_unpaired(run: &[u8], index: &mut [u16], n: u16) -> Option<usize>
    requires { NewlyListed run.now index.old n }
    ensures { PairingJudged run.now index.new result × Listed run.now index.new }
{
    let mut bad = [None; 8];
    pair_all(run, index, &mut bad, n);
    earliest(run, index, &bad, n)
}

// The state behind the last one that is done, where not all are.
fn next_of(done: u16, count: u16) -> Option<u16>
    requires { count ≤ 512 }
    ensures { result ≡ next_of done count }
{
    if done < count { Some(done + 1) } else { None }
}

// Of each process the first state that isn't done.
fn undone(index: &[u16], done: &[u16], bad: &mut [Option<u16>], n: u16)
    requires { ProcessRoom n index.now done.now bad.old }
    ensures { Undone n index.now done.now bad.new }
{
    for p in 0..n {
        let row = p as usize;
        bad[row] = next_of(done[row], count_of(index, p));
    }
}

// The first record in file order whose state is on a circle or after one; where there is none, the clocks.
fn first_circular(run: &[u8], index: &mut [u16], n: u16) -> Option<usize>
    requires { Matched run.now index.old × (n ≡ (head_of run.now).processes) }
    ensures { CircleJudged run.now index.new result × Matched run.now index.new }
{
    let mut done = [0u16; 8];
    order_all(run, index, &mut done, n);
    let mut bad = [None; 8];
    undone(index, &done, &mut bad, n);
    earliest(run, index, &bad, n)
}

// The first record in file order with a clock number other than the rule's.
fn first_wrong_clock(run: &[u8], index: &[u16], n: u16) -> Option<usize>
    requires { Clocked run.now index.now n }
    ensures { ClockJudged run.now result }
{
    let mut bad = [None; 8];
    clock_faults(run, index, &mut bad, n);
    earliest(run, index, &bad, n)
}

// 11, then 12, then 13.
fn judge_states(run: &[u8], index: &mut [u16], head: Head) -> Result<Head, Refusal>
    requires { Listed run.now index.old × Fresh partners_part index.old × (head ≡ head_of run.now) }
    ensures { Judged run.now result × Ready run.now index.new result }
{
    let n = head.processes;
    if let Some(place) = first_unpaired(run, index, n) {
        return Err(refusal_of(File::Run, Reason::Pairing, place));
    }
    if let Some(place) = first_circular(run, index, n) {
        return Err(refusal_of(File::Run, Reason::Circle, place));
    }
    if let Some(place) = first_wrong_clock(run, index, n) {
        return Err(refusal_of(File::Run, Reason::Clock, place));
    }
    Ok(head)
}

// A whole run: its index filled, or the first refusal. The index comes as zeros, which every caller has just made it.
pub fn judge_run(run: &[u8], index: &mut [u16]) -> Result<Head, Refusal>
    requires { index.old ≡ replicate index_size 0 }
    ensures { Judged run.now result × Ready run.now index.new result }
{
    let head = read_run(run, index)?;
    judge_states(run, index, head)
}
