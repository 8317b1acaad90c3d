// What is in transit on a channel at a cut?
ghost use Rattle.judged.specs.Told.{Told};
ghost use Rattle.questions.specs.Questions.{AskedMessages};

use crate::given::given_cut;
use judging::whole::judge_run;
use record::reasons::{Reason, refusal_of};
use record::{File, Head, Refusal};
use run::index::INDEX_SIZE;
use run::indexed::Indexed;
use transit::Load;
use transit::scan::load_on;

// Of an accepted run: 16, 17, or what is in transit.
fn messages_in(
    run: &Indexed<'_>,
    cut: &[u16],
    channel: u16,
    head: Head,
) -> Result<Option<Load>, Refusal>
    requires { Told run.now.run run.now.index head }
    ensures { AskedMessages run.now.run cut.now channel result }
{
    given_cut(run, cut, head)?;
    if head.channels <= channel {
        return Err(refusal_of(File::Run, Reason::NoChannel, 0));
    }
    Ok(load_on(run, cut, channel))
}

// How many messages are in transit on a channel at the cut, consistent or not, and the lowest of their stamps.
pub fn messages_on(run: &[u8], cut: &[u16], channel: u16) -> Result<Option<Load>, Refusal>
    ensures { AskedMessages run.now cut.now channel result }
{
    let mut index = [0u16; INDEX_SIZE];
    let head = judge_run(run, &mut index)?;
    let held = Indexed { run, index: &index };
    messages_in(&held, cut, channel, head)
}
