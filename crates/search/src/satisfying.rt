// Whether a cut satisfies.
ghost use Rattle.std.specs.Prelude.{◌≡◌, ◌↔◌, true};
ghost use Rattle.model.specs.Cut.{IsCut};
ghost use Rattle.model.specs.Clause.{Satisfies};
ghost use Rattle.record.specs.Record.{head_of};
ghost use Rattle.run.specs.Said.{run_in};
ghost use Rattle.condition.specs.Clauses.{clauses_of};

use crate::clauses::{first_channel, first_local};
use crate::sought::Sought;
use cut::clocks::consistent;
use cut::listing::list_channels;

// Every clause holds at the cut, and the cut is consistent; what costs least is asked first.
pub fn satisfied(sought: &Sought<'_>, cut: &[u16], channels: u16) -> bool
    requires { IsCut (run_in sought.now.run) cut.now × (channels ≡ (head_of sought.now.run).channels) }
    ensures { (result ≡ true) ↔ Satisfies (run_in sought.now.run) (clauses_of sought.now.cond sought.now.clauses) cut.now }
{
    let run = sought.run;
    if first_local(sought, cut).is_some() {
        return false;
    }
    if !consistent(run.index, cut) {
        return false;
    }
    let mut counts = [0u16; 16];
    let mut stamps = [0i32; 16];
    list_channels(run, cut, channels, &mut counts, &mut stamps);
    first_channel(sought, cut, &counts).is_none()
}
