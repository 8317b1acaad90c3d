// The pass over a condition's records, and the places of its clauses.
ghost use Rattle.std.specs.Prelude.{◌≡◌, ◌≤◌, length};
ghost use Rattle.record.specs.Inner.{read_records};
ghost use Rattle.condition.specs.Read.{owing, condition_pass, read_of};
ghost use Rattle.condition.specs.Inner.{ClauseRoomy, ClauseNoted, ConditionPassed};

use crate::Item;
use crate::judge::check_item;
use crate::reading::step;
use record::reading::{check_end, check_length};
use record::reasons::at_fault;
use record::{File, Head, Refusal};

// How many clauses are owed behind a record.
fn owed_behind(item: Item, owed: u16, count: u16) -> u16
    requires { ClauseRoomy item owed count }
    ensures { result ≡ owing item owed }
{
    match item {
        Item::Head(clauses) => clauses,
        Item::Clause(_) => owed - 1,
        Item::End => owed,
    }
}

// A clause's place is kept, and the clauses are counted; of any other record nothing is.
fn note(places: &mut [u16], item: Item, owed: u16, count: u16, at: usize) -> u16
    requires { (length places.old ≡ 32) × ClauseRoomy item owed count × (at ≤ 65535) }
    ensures { ClauseNoted item at count places.old result places.new }
{
    match item {
        Item::Head(_) => count,
        Item::Clause(_) => {
            places[count as usize] = at as u16;
            count + 1
        }
        Item::End => count,
    }
}

// Record by record from the front, as in `run::pass`; here each clause read is one less owed.
fn read_records(cond: &[u8], head: Head, places: &mut [u16]) -> Result<u16, Refusal>
    requires { (length cond.now ≤ 65535) × (length places.old ≡ 32) }
    ensures { ConditionPassed (read_records (condition_pass cond.now head)) result places.new }
{
    let mut at: usize = 0;
    let mut owed: u16 = 0;
    let mut count: u16 = 0;
    loop {
        let (item, next) = step(cond, at, owed)?;
        at_fault(File::Condition, at, check_item(head, item))?;
        if let Item::End = item {
            check_end(File::Condition, cond, next)?;
            return Ok(count);
        }
        let behind = owed_behind(item, owed, count);
        count = note(places, item, owed, count, at);
        owed = behind;
        at = next;
    }
}

// The whole pass beside the head of an accepted run: the number of clauses with the place of each in the lent row, or the first refusal with its place.
pub fn read_condition(cond: &[u8], head: Head, places: &mut [u16]) -> Result<u16, Refusal>
    requires { length places.old ≡ 32 }
    ensures { ConditionPassed (read_of cond.now head) result places.new }
{
    check_length(File::Condition, cond)?;
    read_records(cond, head, places)
}
