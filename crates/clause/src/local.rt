// Local clauses: a value of a state, compared.
ghost use Rattle.std.specs.Prelude.{◌≡◌, ◌<◌, pos, get_or};
ghost use Rattle.model.specs.Run.{state, IsState};
ghost use Rattle.model.specs.Clause as M;
ghost use Rattle.record.specs.Layout.{value_count};
ghost use Rattle.run.specs.Said.{run_in};
ghost use Rattle.condition.specs.Clauses.{comparison_of};

use crate::compare::compares;
use record::bytes::i32_at;
use record::layout::value_place;
use run::indexed::Indexed;

pub fn local_holds(
    run: &Indexed<'_>,
    process: u16,
    value: u16,
    k: u16,
    comparison: u16,
    constant: i32,
) -> bool
    requires { IsState (run_in run.now.run) process k × (value < value_count) }
    ensures { result ≡ M.compares (comparison_of comparison) (get_or (state (run_in run.now.run) process k).values value (pos 0)) constant }
{
    let bytes = run.run;
    let at = run.place(process, k) + value_place(value);
    let held = i32_at(bytes, at);
    compares(comparison, held, constant)
}
