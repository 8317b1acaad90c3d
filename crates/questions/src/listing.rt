// All channels at a given cut over one judged run: asked one by one, each would judge the whole run again.
ghost use Rattle.judged.specs.Told.{Told};
ghost use Rattle.questions.specs.Questions.{AskedEach};

use crate::given::given_cut;
use cut::listing::list_channels;
use judging::whole::judge_run;
use record::reasons::{Reason, refusal_of};
use record::{File, Head, Refusal};
use run::index::INDEX_SIZE;
use run::indexed::Indexed;

// Of an accepted run: 16, 15, or the numbers.
fn list_in(
    run: &Indexed<'_>,
    cut: &[u16],
    head: Head,
    counts: &mut [u16],
    stamps: &mut [i32],
) -> Result<(), Refusal>
    requires { Told run.now.run run.now.index head }
    ensures { AskedEach run.now.run cut.now counts.old counts.new stamps.old stamps.new result }
{
    given_cut(run, cut, head)?;
    let size = head.channels as usize;
    if (counts.len() < size) | (stamps.len() < size) {
        return Err(refusal_of(File::Run, Reason::NoRoom, 0));
    }
    list_channels(run, cut, head.channels, counts, stamps);
    Ok(())
}

// How many messages are in transit on each channel at the cut, consistent or not, and the lowest of their stamps, into the first places of a row each.
pub fn messages_on_each(
    run: &[u8],
    cut: &[u16],
    counts: &mut [u16],
    stamps: &mut [i32],
) -> Result<(), Refusal>
    ensures { AskedEach run.now cut.now counts.old counts.new stamps.old stamps.new result }
{
    let mut index = [0u16; INDEX_SIZE];
    let head = judge_run(run, &mut index)?;
    let held = Indexed { run, index: &index };
    list_in(&held, cut, head, counts, stamps)
}
