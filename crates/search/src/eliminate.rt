// The elimination: the cut stays at or below every satisfying cut, and only who has to move is moved.
ghost use Rattle.std.specs.Prelude.{◌≡◌, replicate};
ghost use Rattle.model.specs.Run.{processes};
ghost use Rattle.run.specs.Said.{run_in};
ghost use Rattle.condition.specs.Clauses.{clauses_of};
ghost use Rattle.kept.specs.Kept.{CountsKept};
ghost use Rattle.search.specs.Search.{Counted, LowestCut, Moved, every, is_local, Searched};

use crate::Outcome;
use crate::clauses::{first_channel, first_local};
use crate::sought::Sought;
use cut::clocks::too_low;
use kept::bring_forward;

// Whom a local clause names, else the clocks.
fn first_behind(sought: &Sought<'_>, cut: &[u16]) -> Option<usize>
    requires { LowestCut (run_in sought.now.run) (clauses_of sought.now.cond sought.now.clauses) cut.now }
    ensures { Moved (run_in sought.now.run) (clauses_of sought.now.cond sought.now.clauses) sought.now.index cut.now is_local result }
{
    let run = sought.run;
    let index = run.index;
    first_local(sought, cut).or_else(|| too_low(index, cut))
}

// Or else a channel clause. These are asked last: a stamp is looked for anew each time.
fn first_named(sought: &Sought<'_>, cut: &[u16], counts: &[u16]) -> Option<usize>
    requires { LowestCut (run_in sought.now.run) (clauses_of sought.now.cond sought.now.clauses) cut.now
        × Counted sought.now.run cut.now counts.now }
    ensures { Moved (run_in sought.now.run) (clauses_of sought.now.cond sought.now.clauses) sought.now.index cut.now every result }
{
    // That what is given holds is known from here on: the clauses are linear, so whom a false one names has to move.
    let _ = &sought.run;
    // No `or_else`: of a closure that borrows `sought` the check finds nothing ensured.
    match first_behind(sought, cut) {
        None => first_channel(sought, cut, counts),
        behind => behind,
    }
}

// Moves on until nobody has to, or a history runs out. The kept numbers are those of the cut at every turn.
fn eliminate(
    sought: &Sought<'_>,
    cut: &mut [u16],
    counts: &mut [u16],
    unsent: &mut [u16],
) -> Outcome
    requires { LowestCut (run_in sought.now.run) (clauses_of sought.now.cond sought.now.clauses) cut.old
        × CountsKept (run_in sought.now.run) cut.old counts.old unsent.old }
    ensures { Searched (run_in sought.now.run) (clauses_of sought.now.cond sought.now.clauses) cut.new result }
{
    let run = sought.run;
    loop {
        let Some(p) = first_named(sought, cut, counts) else {
            break Outcome::Found;
        };
        let at = cut[p];
        if run.count(p as u16) <= at {
            break Outcome::NoCut;
        }
        bring_forward(run, cut, p, counts, unsent);
        cut[p] = at + 1;
    }
}

// From state 1 everywhere, where nothing is sent yet, to the first cut, or to a history that runs out.
pub fn search(sought: &Sought<'_>, cut: &mut [u16]) -> Outcome
    requires { cut.old ≡ replicate (processes (run_in sought.now.run)) 1 }
    ensures { Searched (run_in sought.now.run) (clauses_of sought.now.cond sought.now.clauses) cut.new result }
{
    // That what is given holds is known from here on: state 1 is at or below every satisfying cut, and nothing is sent there.
    let _ = &sought.run;
    let mut counts = [0u16; 16];
    let mut unsent = [0u16; 16];
    eliminate(sought, cut, &mut counts, &mut unsent)
}
