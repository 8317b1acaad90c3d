// The search: from state 1 everywhere, whoever a false clause or a clock test names moves on, until nobody has to or a history runs out.
// `movers` says whom one clause names, `clauses` the first that is false, `satisfying` whether a cut satisfies, `eliminate` moves on,
// and `sought` is what all of them are given.
#![tactic(auto)]

mod clauses;
pub mod eliminate;
mod movers;
pub mod satisfying;
pub mod sought;

#[derive(Clone, Copy)]
pub enum Outcome {
    Found,
    NoCut,
}
