// The judging of a condition beside an accepted run's head. `reading` has the reading step, `judge` the tests of one record, `movers` who has
// to move, `pass` goes over all records, `clauses` says what stands in a clause record.
#![tactic(auto)]

pub mod clauses;
mod judge;
pub mod kind;
pub mod movers;
pub mod pass;
pub mod reading;

// A local clause as its record says it. The comparison stays a number: an unknown one is refused only behind the tests for 7.
#[derive(Clone, Copy)]
pub struct Local {
    pub process: u16,
    pub value: u16,
    pub comparison: u16,
    pub constant: i32,
}

// A channel clause as its record says it. The test stays a number: an unknown one is refused only behind the test for 7, and who has to move is a match over
// the test numbers (docs/DECISIONS.md, "The named forms").
#[derive(Clone, Copy)]
pub struct Test {
    pub channel: u16,
    pub test: u16,
    pub operand: u32,
}

#[derive(Clone, Copy)]
pub enum Clause {
    Local(Local),
    Channel(Test),
}

// A record of a condition: the head with the number of clauses, a clause, the end.
#[derive(Clone, Copy)]
pub enum Item {
    Head(u16),
    Clause(Clause),
    End,
}
