// A whole run judged: `whole` has the pass, then 11, 12 and 13, `faults` the first record in file order that has a fault.
#![tactic(auto)]

mod faults;
pub mod whole;
