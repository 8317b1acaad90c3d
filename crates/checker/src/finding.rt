// The search over raw bytes: the whole run, the whole condition, room for the cut, and only then the cut.
ghost use Rattle.judged.specs.Told.{Told};
ghost use Rattle.cut.specs.Listing.{Room};
ghost use Rattle.search.specs.Prepared.{Prepared};
ghost use Rattle.checker.specs.Answered.{Answered, AnsweredListed};
ghost use Rattle.checker.specs.Inner.{Searching};

use condition::pass::read_condition;
use cut::listing::{list_channels, write};
use judging::whole::judge_run;
use record::reasons::{Reason, refusal_of};
use record::{File, Head, Refusal};
use run::index::INDEX_SIZE;
use run::indexed::Indexed;
use search::Outcome;
use search::eliminate::search;
use search::sought::Sought;

// The cut is sought in a row of its own, so that no lent place changes unless it is found.
fn search_in(sought: &Sought<'_>, cut: &mut [u16], lent: &mut [u16]) -> Result<Outcome, Refusal>
    requires { Searching sought.now.run sought.now.cond sought.now.index sought.now.clauses cut.old lent.old }
    ensures { Answered sought.now.run sought.now.cond lent.old lent.new result }
{
    let outcome = search(sought, cut);
    let Outcome::Found = outcome else {
        return Ok(outcome);
    };
    write(cut, lent);
    Ok(outcome)
}

// 15 comes before the search.
fn search_for(
    run: &Indexed<'_>,
    cond: &[u8],
    clauses: &[u16],
    head: Head,
    lent: &mut [u16],
) -> Result<Outcome, Refusal>
    requires { Told run.now.run run.now.index head × Prepared run.now.run cond.now run.now.index clauses.now }
    ensures { Answered run.now.run cond.now lent.old lent.new result }
{
    let size = head.processes as usize;
    if lent.len() < size {
        return Err(refusal_of(File::Run, Reason::NoRoom, 0));
    }
    let mut row = [1u16; 8];
    let sought = Sought { run, cond, clauses };
    search_in(&sought, &mut row[..size], lent)
}

// Beside an accepted run.
fn with_condition(
    run: &Indexed<'_>,
    cond: &[u8],
    head: Head,
    lent: &mut [u16],
) -> Result<Outcome, Refusal>
    requires { Told run.now.run run.now.index head }
    ensures { Answered run.now.run cond.now lent.old lent.new result }
{
    let mut clauses = [0u16; 32];
    let count = read_condition(cond, head, &mut clauses)?;
    search_for(run, cond, &clauses[..count as usize], head, lent)
}

// The first consistent cut at which every clause holds, into the first lent places.
pub fn first_cut(run: &[u8], cond: &[u8], lent: &mut [u16]) -> Result<Outcome, Refusal>
    ensures { Answered run.now cond.now lent.old lent.new result }
{
    let mut index = [0u16; INDEX_SIZE];
    let head = judge_run(run, &mut index)?;
    let held = Indexed { run, index: &index };
    with_condition(&held, cond, head, lent)
}

// Beside an accepted run, where there is a place for each channel in both rows.
fn with_channels(
    run: &Indexed<'_>,
    cond: &[u8],
    head: Head,
    lent: &mut [u16],
    counts: &mut [u16],
    stamps: &mut [i32],
) -> Result<Outcome, Refusal>
    requires { Told run.now.run run.now.index head × Room head.channels counts.old stamps.old }
    ensures { AnsweredListed run.now.run cond.now lent.old lent.new
        counts.old counts.new stamps.old stamps.new result }
{
    let outcome = with_condition(run, cond, head, lent)?;
    let Outcome::Found = outcome else {
        return Ok(outcome);
    };
    let size = head.processes as usize;
    list_channels(run, &lent[..size], head.channels, counts, stamps);
    Ok(outcome)
}

// The same, where there may be none. With no place lent for the cut either, the answer is the condition's refusal or 15.
fn listed_for(
    run: &Indexed<'_>,
    cond: &[u8],
    head: Head,
    lent: &mut [u16],
    counts: &mut [u16],
    stamps: &mut [i32],
) -> Result<Outcome, Refusal>
    requires { Told run.now.run run.now.index head }
    ensures { AnsweredListed run.now.run cond.now lent.old lent.new
        counts.old counts.new stamps.old stamps.new result }
{
    let size = head.channels as usize;
    if (counts.len() < size) | (stamps.len() < size) {
        return with_condition(run, cond, head, &mut lent[..0]);
    }
    with_channels(run, cond, head, lent, counts, stamps)
}

// The first cut into the first lent places, and into two rows of others how many messages are on each channel there and the lowest of their stamps,
// over one judging.
pub fn first_cut_listed(
    run: &[u8],
    cond: &[u8],
    lent: &mut [u16],
    counts: &mut [u16],
    stamps: &mut [i32],
) -> Result<Outcome, Refusal>
    ensures { AnsweredListed run.now cond.now lent.old lent.new
        counts.old counts.new stamps.old stamps.new result }
{
    let mut index = [0u16; INDEX_SIZE];
    let head = judge_run(run, &mut index)?;
    let held = Indexed { run, index: &index };
    listed_for(&held, cond, head, lent, counts, stamps)
}
