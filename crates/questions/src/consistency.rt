// Is a cut consistent?
ghost use Rattle.judged.specs.Told.{Told};
ghost use Rattle.questions.specs.Questions.{AskedConsistent};

use crate::given::given_cut;
use cut::clocks::consistent;
use judging::whole::judge_run;
use record::{Head, Refusal};
use run::index::INDEX_SIZE;
use run::indexed::Indexed;

// Of an accepted run: 16, or what the clocks say.
fn consistent_in(run: &Indexed<'_>, cut: &[u16], head: Head) -> Result<bool, Refusal>
    requires { Told run.now.run run.now.index head }
    ensures { AskedConsistent run.now.run cut.now result }
{
    given_cut(run, cut, head)?;
    Ok(consistent(run.index, cut))
}

// Whether no chosen state of the cut is before another.
pub fn is_consistent(run: &[u8], cut: &[u16]) -> Result<bool, Refusal>
    ensures { AskedConsistent run.now cut.now result }
{
    let mut index = [0u16; INDEX_SIZE];
    let head = judge_run(run, &mut index)?;
    let held = Indexed { run, index: &index };
    consistent_in(&held, cut, head)
}
