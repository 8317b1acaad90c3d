// The test of a given cut that each question begins with.
ghost use Rattle.std.specs.Prelude.{MatchResult};
ghost use Rattle.model.specs.Cut.{IsCut};
ghost use Rattle.run.specs.Said.{run_in};
ghost use Rattle.judged.specs.Told.{Told};
ghost use Rattle.questions.specs.Inner.{NotGiven};

use cut::choice::is_cut;
use record::reasons::{Reason, refusal_of};
use record::{File, Head, Refusal};
use run::indexed::Indexed;

// 16, where the numbers aren't a cut of the run.
pub(crate) fn given_cut(run: &Indexed<'_>, cut: &[u16], head: Head) -> Result<(), Refusal>
    requires { Told run.now.run run.now.index head }
    ensures { MatchResult result (λ _. IsCut (run_in run.now.run) cut.now) (λ x. NotGiven run.now.run cut.now x) }
{
    if !is_cut(run.index, cut, head.processes) {
        return Err(refusal_of(File::Run, Reason::WrongCut, 0));
    }
    Ok(())
}
