// A run read record by record: `pass` goes over all records, `index` is the table that holds where each state stands, its partner and its clock.
#![tactic(auto)]

pub mod index;
pub mod indexed;
pub mod pass;
