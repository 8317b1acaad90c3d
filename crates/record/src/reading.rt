// The reading step over bytes and a place apart.
ghost use Rattle.std.specs.Prelude.{◌≡◌, ◌+◌, ◌≤◌, length};
ghost use Rattle.record.specs.Layout.{channel_length};
ghost use Rattle.record.specs.Inner.{values_place};
ghost use Rattle.record.specs.Refusal.{passed};
ghost use Rattle.record.specs.Kind.{kind_number};
ghost use Rattle.record.specs.Pass.{check_length, check_end};
ghost use Rattle.record.specs.Record.{length_of, check_frame, head_of, due, check_opening, check_step, channel_fields_at, state_fields_at, record_at, step_at};

use crate::bytes::{left_from, u16_at, u32_at};
use crate::kind::Kind;
use crate::layout::{CHANNEL_LENGTH, HEAD_LENGTH, state_length, states_place};
use crate::reasons::{Reason, at_fault, refuse_if};
use crate::{ChannelFields, File, Head, Record, Refusal, StateFields};

// The length that the paper's table gives a kind.
#[tactic(auto, unfolding(crate::specs::Record::length_of))]
fn length_of(kind: Kind, head: Head) -> usize
    ensures { result ≡ length_of (kind_number kind) head }
{
    match kind {
        Kind::Head => HEAD_LENGTH,
        Kind::Channel => CHANNEL_LENGTH,
        Kind::State => state_length(head),
        Kind::End => 4,
    }
}

// 2, 3, 2: no length, a length under 4, a body cut short.
#[tactic(auto, unfolding(crate::specs::Record::check_frame))]
pub fn check_frame(s: &[u8], at: usize) -> Result<(), Reason>
    ensures { result ≡ check_frame s.now at }
{
    let left = left_from(s, at);
    refuse_if(left < 2, Reason::CutShort)?;
    let length = u16_at(s, at) as usize;
    refuse_if(length < 4, Reason::WrongLength)?;
    refuse_if(left < length, Reason::CutShort)
}

// What the run's head says; zeros where it isn't there.
#[tactic(auto, unfolding(crate::specs::Record::head_of))]
pub fn head_of(run: &[u8]) -> Head
    ensures { result ≡ head_of run.now }
{
    if run.len() < HEAD_LENGTH {
        return Head {
            processes: 0,
            channels: 0,
        };
    }
    let processes = u16_at(run, 6);
    let channels = u16_at(run, 8);
    Head {
        processes,
        channels,
    }
}

// Whether a kind may stand at a place: the head, then the channels, then states and the end.
#[tactic(auto, unfolding(crate::specs::Record::due))]
fn is_due(head: Head, at: usize, kind: Kind) -> bool
    ensures { result ≡ due head at (kind_number kind) }
{
    match kind {
        Kind::Head => at == 0,
        Kind::Channel => (at != 0) & (at < states_place(head)),
        Kind::State | Kind::End => (at != 0) & (at >= states_place(head)),
    }
}

// 2, 3, 2, 4, 3: the frame, the kind, the kind's length.
#[tactic(auto, unfolding(crate::specs::Record::check_opening))]
fn check_opening(run: &[u8], head: Head, at: usize) -> Result<(), Reason>
    requires { head ≡ head_of run.now }
    ensures { result ≡ check_opening run.now at }
{
    check_frame(run, at)?;
    let length = u16_at(run, at) as usize;
    let kind = Kind::try_from(u16_at(run, at + 2))?;
    refuse_if(!is_due(head, at, kind), Reason::WrongKind)?;
    refuse_if(length != length_of(kind, head), Reason::WrongLength)
}

// The same, then 6.
#[tactic(auto, unfolding(crate::specs::Record::check_step))]
fn check_step(run: &[u8], head: Head, at: usize) -> Result<(), Reason>
    requires { head ≡ head_of run.now }
    ensures { result ≡ check_step run.now at }
{
    check_opening(run, head, at)?;
    if u16_at(run, at + 2) != 1 {
        return Ok(());
    }
    refuse_if(u16_at(run, at + 4) != 1, Reason::Format)
}

#[tactic(auto, unfolding(crate::specs::Record::channel_fields_at))]
fn channel_fields_at(run: &[u8], at: usize) -> ChannelFields
    requires { at + channel_length ≤ length run.now }
    ensures { result ≡ channel_fields_at run.now at }
{
    let number = u16_at(run, at + 4);
    let from = u16_at(run, at + 6);
    let to = u16_at(run, at + 8);
    ChannelFields { number, from, to }
}

#[tactic(auto, unfolding(crate::specs::Record::state_fields_at))]
pub fn state_fields_at(run: &[u8], at: usize) -> StateFields
    requires { at + values_place ≤ length run.now }
    ensures { result ≡ state_fields_at run.now at }
{
    let process = u16_at(run, at + 4);
    let event = u16_at(run, at + 6);
    let channel = u16_at(run, at + 8);
    let message = u32_at(run, at + 10);
    let stamp = u32_at(run, at + 14);
    StateFields {
        process,
        event,
        channel,
        message,
        stamp,
    }
}

// What stands in the record at a place, whose opening is right.
#[tactic(auto, unfolding(crate::specs::Record::record_at))]
fn record_at(run: &[u8], head: Head, at: usize) -> Record
    requires { (head ≡ head_of run.now) × (check_opening run.now at ≡ passed) }
    ensures { result ≡ record_at run.now at }
{
    match Kind::try_from(u16_at(run, at + 2)) {
        Ok(Kind::Head) => Record::Head(head),
        Ok(Kind::Channel) => Record::Channel(channel_fields_at(run, at)),
        Ok(Kind::State) => Record::State(state_fields_at(run, at)),
        Ok(Kind::End) | Err(_) => Record::End,
    }
}

// The record at a place of a run with the place after it, or else the refusal.
pub fn step(run: &[u8], at: usize) -> Result<(Record, usize), Refusal>
    ensures { result ≡ step_at run.now at }
{
    step_beside(run, head_of(run), at)
}

// The same beside the run's head, which a pass reads once.
#[tactic(auto, unfolding(crate::specs::Record::step_at))]
pub fn step_beside(run: &[u8], head: Head, at: usize) -> Result<(Record, usize), Refusal>
    requires { head ≡ head_of run.now }
    ensures { result ≡ step_at run.now at }
{
    at_fault(File::Run, at, check_step(run, head, at))?;
    let next = at + u16_at(run, at) as usize;
    let record = record_at(run, head, at);
    Ok((record, next))
}

// A file has at most 65,535 bytes.
#[tactic(auto, unfolding(crate::specs::Pass::check_length))]
pub fn check_length(file: File, bytes: &[u8]) -> Result<(), Refusal>
    ensures { result ≡ check_length file bytes.now }
{
    at_fault(file, 0, refuse_if(65535 < bytes.len(), Reason::TooLong))
}

// Behind the end record, whose next place this is, nothing may follow.
#[tactic(auto, unfolding(crate::specs::Pass::check_end))]
pub fn check_end(file: File, bytes: &[u8], next: usize) -> Result<(), Refusal>
    ensures { result ≡ check_end file bytes.now next }
{
    if next < bytes.len() {
        return Err(Refusal {
            file,
            reason: Reason::WrongKind,
            place: next,
            after: true,
        });
    }
    Ok(())
}
