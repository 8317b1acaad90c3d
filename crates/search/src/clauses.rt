// The first clause of a kind that is false at a cut: whom it names.
ghost use Rattle.std.specs.Prelude.{true, false};
ghost use Rattle.model.specs.Cut.{IsCut};
ghost use Rattle.record.specs.Record.{head_of};
ghost use Rattle.run.specs.Said.{run_in};
ghost use Rattle.condition.specs.Clauses.{clauses_of};
ghost use Rattle.condition.specs.Known.{clause_at};
ghost use Rattle.condition.specs.Known.{ClauseKnown};
ghost use Rattle.search.specs.Search.{Counted, Tried, KindTested};

use crate::movers::{channel_mover, local_mover};
use crate::sought::Sought;
use condition::Clause;
use condition::clauses::clause_at;
use run::indexed::Indexed;

// The clause whose record stands at a place, if it is a local one.
fn local_clause(run: &Indexed<'_>, cond: &[u8], at: usize, cut: &[u16]) -> Option<usize>
    requires { IsCut (run_in run.now.run) cut.now × ClauseKnown cond.now (head_of run.now.run) at }
    ensures { Tried (run_in run.now.run) cut.now (clause_at cond.now at) true result }
{
    let Clause::Local(clause) = clause_at(cond, at) else {
        return None;
    };
    local_mover(run, cut, clause)
}

// The same, if it is a channel clause; the row counts what is in transit.
fn channel_clause(
    run: &Indexed<'_>,
    cond: &[u8],
    at: usize,
    cut: &[u16],
    counts: &[u16],
) -> Option<usize>
    requires { Counted run.now.run cut.now counts.now × ClauseKnown cond.now (head_of run.now.run) at }
    ensures { Tried (run_in run.now.run) cut.now (clause_at cond.now at) false result }
{
    let Clause::Channel(clause) = clause_at(cond, at) else {
        return None;
    };
    channel_mover(run, cut, clause, counts)
}

// The first local clause that is false.
pub(crate) fn first_local(sought: &Sought<'_>, cut: &[u16]) -> Option<usize>
    requires { IsCut (run_in sought.now.run) cut.now }
    ensures { KindTested (run_in sought.now.run) (clauses_of sought.now.cond sought.now.clauses) cut.now true result }
{
    let run = sought.run;
    let cond = sought.cond;
    sought
        .clauses
        .iter()
        .find_map(|&at| local_clause(run, cond, at as usize, cut))
}

// The first channel clause that is false.
pub(crate) fn first_channel(sought: &Sought<'_>, cut: &[u16], counts: &[u16]) -> Option<usize>
    requires { Counted sought.now.run cut.now counts.now }
    ensures { KindTested (run_in sought.now.run) (clauses_of sought.now.cond sought.now.clauses) cut.now false result }
{
    let run = sought.run;
    let cond = sought.cond;
    sought
        .clauses
        .iter()
        .find_map(|&at| channel_clause(run, cond, at as usize, cut, counts))
}
