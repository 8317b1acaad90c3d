// What the tests say of a record beside what is known so far: nothing, or why it is refused. A line a test, in the paper's order.
ghost use Rattle.std.specs.Prelude.{◌≡◌, ◌≤◌, length};
ghost use Rattle.states.specs.Judge.{check_head, check_channel, check_names, check_fields, check_start, check_side, check_state, lacks, check_record};
ghost use Rattle.states.specs.Inner.{HasChannel, StateBeside, RecordBeside};

use crate::held::channel_at;
use record::layout::channel_place;
use record::reasons::{Reason, refuse_if};
use record::{ChannelFields, Head, Record, StateFields};

// 5: the numbers of processes and channels.
#[tactic(auto, unfolding(crate::specs::Judge::check_head))]
fn check_head(head: Head) -> Result<(), Reason>
    ensures { result ≡ check_head head }
{
    refuse_if(head.processes == 0, Reason::Limit)?;
    refuse_if(8 < head.processes, Reason::Limit)?;
    refuse_if(16 < head.channels, Reason::Limit)
}

// 7: the channel's number in turn, its ends processes that differ.
#[tactic(auto, unfolding(crate::specs::Judge::check_channel))]
fn check_channel(processes: u16, at: usize, line: ChannelFields) -> Result<(), Reason>
    ensures { result ≡ check_channel processes at line }
{
    refuse_if(channel_place(line.number) != at, Reason::Name)?;
    refuse_if(processes <= line.from, Reason::Name)?;
    refuse_if(processes <= line.to, Reason::Name)?;
    refuse_if(line.from == line.to, Reason::Name)
}

// 7: the process, and of a send or a receive the channel, have to exist.
#[tactic(auto, unfolding(crate::specs::Judge::check_names))]
fn check_names(head: Head, f: StateFields) -> Result<(), Reason>
    ensures { result ≡ check_names head f }
{
    refuse_if(head.processes <= f.process, Reason::Name)?;
    refuse_if((f.event == 2) & (head.channels <= f.channel), Reason::Name)?;
    refuse_if((f.event == 3) & (head.channels <= f.channel), Reason::Name)
}

// 8: the event is known, and what it doesn't use is zero. An unknown event is refused only here, behind 7 and 5, so the fields hold it as a number.
#[tactic(auto, unfolding(crate::specs::Judge::check_fields))]
fn check_fields(f: StateFields) -> Result<(), Reason>
    ensures { result ≡ check_fields f }
{
    refuse_if(3 < f.event, Reason::Field)?;
    refuse_if((f.event < 2) & (f.channel != 0), Reason::Field)?;
    refuse_if((f.event < 2) & (f.message != 0), Reason::Field)?;
    refuse_if((f.event != 2) & (f.stamp != 0), Reason::Field)
}

// 9: a process's first state, and no other, is a start.
#[tactic(auto, unfolding(crate::specs::Judge::check_start))]
fn check_start(f: StateFields, count: u16) -> Result<(), Reason>
    ensures { result ≡ check_start f count }
{
    refuse_if((f.event == 0) & (count != 0), Reason::Start)?;
    refuse_if((f.event != 0) & (count == 0), Reason::Start)
}

// 10: only the channel's ends send and receive on it.
#[tactic(auto, unfolding(crate::specs::Judge::check_side))]
fn check_side(run: &[u8], f: StateFields) -> Result<(), Reason>
    requires { (f.event ≡ 2 → HasChannel run.now f.channel) × (f.event ≡ 3 → HasChannel run.now f.channel) }
    ensures { result ≡ check_side run.now f }
{
    match f.event {
        2 => refuse_if(channel_at(run, f.channel).from != f.process, Reason::Side),
        3 => refuse_if(channel_at(run, f.channel).to != f.process, Reason::Side),
        _ => Ok(()),
    }
}

// A state in the order 7, 5, 8, 9, 10.
#[tactic(auto, unfolding(crate::specs::Judge::check_state))]
fn check_state(run: &[u8], head: Head, counts: &[u16], f: StateFields) -> Result<(), Reason>
    requires { StateBeside run.now head counts.now }
    ensures { result ≡ check_state run.now counts.now f }
{
    check_names(head, f)?;
    let count = counts[f.process as usize];
    refuse_if(512 <= count, Reason::Limit)?;
    check_fields(f)?;
    check_start(f, count)?;
    check_side(run, f)
}

// One of the first n processes has no state.
fn lacking(counts: &[u16], n: u16) -> bool
    requires { n ≤ length counts.now }
    ensures { result ≡ lacks counts.now n }
{
    counts[..n as usize].contains(&0)
}

// What the step accepted, judged beside the run's head and the number of states of each process so far.
pub fn check_record(
    run: &[u8],
    head: Head,
    counts: &[u16],
    at: usize,
    item: Record,
) -> Result<(), Reason>
    requires { RecordBeside run.now head counts.now at item }
    ensures { result ≡ check_record run.now counts.now at item }
{
    match item {
        Record::Head(said) => check_head(said),
        Record::Channel(line) => check_channel(head.processes, at, line),
        Record::State(f) => check_state(run, head, counts, f),
        Record::End => refuse_if(lacking(counts, head.processes), Reason::Start),
    }
}
