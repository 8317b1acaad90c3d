// Whom one clause names at a cut: nobody where it holds, else who has to move.
ghost use Rattle.model.specs.Cut.{IsCut};
ghost use Rattle.record.specs.Record.{head_of};
ghost use Rattle.run.specs.Said.{run_in};
ghost use Rattle.condition.specs.Clauses.{test_of, clause_of};
ghost use Rattle.condition.specs.Known.{LocalKnown, TestKnown};
ghost use Rattle.search.specs.Search.{Counted, Tested, EndNamed};

use clause::channel_tests::channel_passes;
use clause::local::local_holds;
use condition::movers::who_moves;
use condition::{Clause, Local, Test};
use model::Mover;
use run::indexed::Indexed;
use states::held::channel_at;

// A local clause names its process.
pub(crate) fn local_mover(run: &Indexed<'_>, cut: &[u16], clause: Local) -> Option<usize>
    requires { IsCut (run_in run.now.run) cut.now × LocalKnown (head_of run.now.run) clause }
    ensures { Tested (run_in run.now.run) cut.now (clause_of (Clause.Local clause)) result }
{
    // That the index holds is known from here on: the processes that the head counts are the run's.
    let _ = &run.index;
    let p = clause.process as usize;
    let k = cut[p];
    if local_holds(
        run,
        clause.process,
        clause.value,
        k,
        clause.comparison,
        clause.constant,
    ) {
        return None;
    }
    Some(p)
}

// The end of its channel that a false clause names, where so many messages are in transit.
fn end_named(run: &Indexed<'_>, clause: Test, count: usize) -> Option<usize>
    requires { TestKnown (head_of run.now.run) clause }
    ensures { EndNamed (run_in run.now.run) clause.channel (test_of clause.test clause.operand) count result }
{
    let ends = channel_at(run.run, clause.channel);
    let mover = who_moves(clause.test, clause.operand, count);
    match mover {
        Mover::Sender => Some(ends.from as usize),
        Mover::Receiver => Some(ends.to as usize),
        Mover::NotLinear => Some(ends.to as usize),
    }
}

// A channel clause names its sender or its receiver; the row counts what is in transit.
pub(crate) fn channel_mover(
    run: &Indexed<'_>,
    cut: &[u16],
    clause: Test,
    counts: &[u16],
) -> Option<usize>
    requires { Counted run.now.run cut.now counts.now × TestKnown (head_of run.now.run) clause }
    ensures { Tested (run_in run.now.run) cut.now (clause_of (Clause.Channel clause)) result }
{
    // That the index holds is known from here on: the channels that the head counts are the run's.
    let _ = &run.index;
    let channel = clause.channel as usize;
    let count = counts[channel] as usize;
    if channel_passes(run, cut, clause, count) {
        return None;
    }
    end_named(run, clause, count)
}
