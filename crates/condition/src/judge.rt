// What the tests say of a record of a condition beside the run's head: nothing, or why it is refused. A line a test, in the paper's order.
ghost use Rattle.std.specs.Prelude.{◌≡◌};
ghost use Rattle.condition.specs.Judge.{may_move, check_head, check_local, check_test, check_clause, check_item};

use crate::movers::who_moves;
use crate::{Clause, Item, Local, Test};
use model::Mover;
use record::Head;
use record::layout::VALUE_COUNT;
use record::reasons::{Reason, refuse_if};

// 5: the number of clauses.
#[tactic(auto, unfolding(crate::specs::Judge::check_head))]
fn check_head(clauses: u16) -> Result<(), Reason>
    ensures { result ≡ check_head clauses }
{
    refuse_if(32 < clauses, Reason::Limit)
}

// 7, 8: the process and the value have to exist, the comparison is known.
#[tactic(auto, unfolding(crate::specs::Judge::check_local))]
fn check_local(head: Head, l: Local) -> Result<(), Reason>
    ensures { result ≡ check_local head l }
{
    refuse_if(head.processes <= l.process, Reason::Name)?;
    refuse_if(VALUE_COUNT <= l.value, Reason::Name)?;
    refuse_if(l.comparison == 0, Reason::Field)?;
    refuse_if(4 < l.comparison, Reason::Field)
}

// Somebody is named who has to move.
fn may_move(mover: Mover) -> bool
    ensures { result ≡ may_move mover }
{
    match mover {
        Mover::Sender => true,
        Mover::Receiver => true,
        Mover::NotLinear => false,
    }
}

// 7, 8, 14: the channel has to exist, the test is known and linear.
#[tactic(auto, unfolding(crate::specs::Judge::check_test))]
fn check_test(head: Head, t: Test) -> Result<(), Reason>
    ensures { result ≡ check_test head t }
{
    let linear = may_move(who_moves(t.test, t.operand, 0));
    refuse_if(head.channels <= t.channel, Reason::Name)?;
    refuse_if(t.test == 0, Reason::Field)?;
    refuse_if(9 < t.test, Reason::Field)?;
    refuse_if(!linear, Reason::NotLinear)
}

fn check_clause(head: Head, clause: Clause) -> Result<(), Reason>
    ensures { result ≡ check_clause head clause }
{
    match clause {
        Clause::Local(l) => check_local(head, l),
        Clause::Channel(t) => check_test(head, t),
    }
}

// What the step accepted, judged beside the run's head.
pub(crate) fn check_item(head: Head, item: Item) -> Result<(), Reason>
    ensures { result ≡ check_item head item }
{
    match item {
        Item::Head(clauses) => check_head(clauses),
        Item::Clause(clause) => check_clause(head, clause),
        Item::End => Ok(()),
    }
}
