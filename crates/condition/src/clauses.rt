// What stands in a clause record.
ghost use Rattle.std.specs.Prelude.{◌≡◌, ◌+◌, ◌≤◌, length};
ghost use Rattle.condition.specs.Clauses.{local_at, test_at, held_at};
ghost use Rattle.condition.specs.Known.{Whole};

use crate::kind::Kind;
use crate::{Clause, Local, Test};
use record::bytes::{i32_at, u16_at, u32_at};

#[tactic(auto, unfolding(crate::specs::Clauses::local_at))]
fn local_at(cond: &[u8], at: usize) -> Local
    requires { at + 14 ≤ length cond.now }
    ensures { result ≡ local_at cond.now at }
{
    let process = u16_at(cond, at + 4);
    let value = u16_at(cond, at + 6);
    let comparison = u16_at(cond, at + 8);
    let constant = i32_at(cond, at + 10);
    Local {
        process,
        value,
        comparison,
        constant,
    }
}

#[tactic(auto, unfolding(crate::specs::Clauses::test_at))]
fn test_at(cond: &[u8], at: usize) -> Test
    requires { at + 12 ≤ length cond.now }
    ensures { result ≡ test_at cond.now at }
{
    let channel = u16_at(cond, at + 4);
    let test = u16_at(cond, at + 6);
    let operand = u32_at(cond, at + 8);
    Test {
        channel,
        test,
        operand,
    }
}

// The clause whose whole record stands at a place.
#[tactic(auto, unfolding(crate::specs::Clauses::held_at))]
pub fn clause_at(cond: &[u8], at: usize) -> Clause
    requires { Whole cond.now at }
    ensures { result ≡ held_at cond.now at }
{
    match Kind::try_from(u16_at(cond, at + 2)) {
        Ok(Kind::Local) => Clause::Local(local_at(cond, at)),
        _ => Clause::Channel(test_at(cond, at)),
    }
}
