// Does a cut satisfy a condition?
ghost use Rattle.judged.specs.Told.{Told};
ghost use Rattle.search.specs.Prepared.{Prepared};
ghost use Rattle.questions.specs.Questions.{AskedSatisfies};

use crate::given::given_cut;
use condition::pass::read_condition;
use judging::whole::judge_run;
use record::{Head, Refusal};
use run::index::INDEX_SIZE;
use run::indexed::Indexed;
use search::satisfying::satisfied;
use search::sought::Sought;

// Of an accepted run and an accepted condition: 16, or the answer.
fn satisfies_at(
    run: &Indexed<'_>,
    cond: &[u8],
    clauses: &[u16],
    cut: &[u16],
    head: Head,
) -> Result<bool, Refusal>
    requires { Told run.now.run run.now.index head × Prepared run.now.run cond.now run.now.index clauses.now }
    ensures { AskedSatisfies run.now.run cond.now cut.now result }
{
    given_cut(run, cut, head)?;
    let sought = Sought { run, cond, clauses };
    Ok(satisfied(&sought, cut, head.channels))
}

// Of an accepted run: the condition's refusal, or what follows it.
fn satisfies_in(run: &Indexed<'_>, cond: &[u8], cut: &[u16], head: Head) -> Result<bool, Refusal>
    requires { Told run.now.run run.now.index head }
    ensures { AskedSatisfies run.now.run cond.now cut.now result }
{
    let mut clauses = [0u16; 32];
    let count = read_condition(cond, head, &mut clauses)?;
    satisfies_at(run, cond, &clauses[..count as usize], cut, head)
}

// Whether the cut is consistent and every clause of the condition holds there.
pub fn satisfies(run: &[u8], cond: &[u8], cut: &[u16]) -> Result<bool, Refusal>
    ensures { AskedSatisfies run.now cond.now cut.now result }
{
    let mut index = [0u16; INDEX_SIZE];
    let head = judge_run(run, &mut index)?;
    let held = Indexed { run, index: &index };
    satisfies_in(&held, cond, cut, head)
}
