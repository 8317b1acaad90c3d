// The reading step of a condition, over bytes and a place apart.
ghost use Rattle.std.specs.Prelude.{◌≡◌};
ghost use Rattle.condition.specs.Items.{due, length_of, check_step, item_at, step_at};
ghost use Rattle.condition.specs.Kind.{kind_number};
ghost use Rattle.condition.specs.Inner.{Taken};

use crate::Item;
use crate::clauses::clause_at;
use crate::kind::Kind;
use record::bytes::u16_at;
use record::reading::check_frame;
use record::reasons::{Reason, at_fault, refuse_if};
use record::{File, Refusal};

// Whether a kind may stand at a place: the head, then the clauses that are owed, then the end.
#[tactic(auto, unfolding(crate::specs::Items::due))]
fn is_due(at: usize, owed: u16, kind: Kind) -> bool
    ensures { result ≡ due at owed (kind_number kind) }
{
    match kind {
        Kind::Head => at == 0,
        Kind::Local | Kind::Channel => (at != 0) & (owed != 0),
        Kind::End => (at != 0) & (owed == 0),
    }
}

// The length that the paper's table gives a kind.
fn length_of(kind: Kind) -> usize
    ensures { result ≡ length_of (kind_number kind) }
{
    match kind {
        Kind::End => 4,
        Kind::Head => 6,
        Kind::Local => 14,
        Kind::Channel => 12,
    }
}

// 2, 3, 2, 4, 3: the frame, the kind, the kind's length.
#[tactic(auto, unfolding(crate::specs::Items::check_step))]
fn check_step(cond: &[u8], at: usize, owed: u16) -> Result<(), Reason>
    ensures { result ≡ check_step cond.now at owed }
{
    check_frame(cond, at)?;
    let length = u16_at(cond, at) as usize;
    let kind = Kind::try_from(u16_at(cond, at + 2))?;
    refuse_if(!is_due(at, owed, kind), Reason::WrongKind)?;
    refuse_if(length != length_of(kind), Reason::WrongLength)
}

// What stands in the record at a place, which the step accepts.
#[tactic(auto, unfolding(crate::specs::Items::item_at))]
fn item_at(cond: &[u8], at: usize) -> Item
    requires { Taken cond.now at }
    ensures { result ≡ item_at cond.now at }
{
    match Kind::try_from(u16_at(cond, at + 2)) {
        Ok(Kind::Head) => Item::Head(u16_at(cond, at + 4)),
        Ok(Kind::End) => Item::End,
        _ => Item::Clause(clause_at(cond, at)),
    }
}

// The record at a place with the place after it, or else the refusal, where so many clauses are still owed.
#[tactic(auto, unfolding(crate::specs::Items::step_at))]
pub fn step(cond: &[u8], at: usize, owed: u16) -> Result<(Item, usize), Refusal>
    ensures { result ≡ step_at cond.now at owed }
{
    at_fault(File::Condition, at, check_step(cond, at, owed))?;
    let next = at + u16_at(cond, at) as usize;
    let item = item_at(cond, at);
    Ok((item, next))
}
