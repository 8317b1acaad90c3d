// 11: each received message with its send. Within a process the file's order is the order of its states, so a second send or receive is one that an
// earlier state of the same process made already.
#![tactic(auto)]

ghost use Rattle.std.specs.Prelude.{◌≡◌, ◌≤◌, ◌<◌, length};
ghost use Rattle.std.proofs.Math.Option.{some};
ghost use Rattle.model.specs.Run.{into, IsState, same_message};
ghost use Rattle.record.specs.Record.{head_of};
ghost use Rattle.run.specs.Said.{run_in};
ghost use Rattle.run.specs.Index.{Listed};
ghost use Rattle.judged.specs.Inner.{NewlyListed};
ghost use Rattle.judged.specs.Pairing.{carries, Carrier, Stretch, SendIs, mark_at, Marking, Repeats};
ghost use Rattle.judged.specs.Pairing.{Received, PairingTables, PairingAt, Settled, ProcessPaired, ProcessesPaired};

use model::{Event, Message};
use run::index::{count_of, enter_partner, event_at};
use states::held::channel_at;

// A message is told by its channel and its number there; its stamp doesn't count.
fn is_same(m: Message, n: Message) -> bool
    ensures { result ≡ same_message (some m) (some n) }
{
    (m.channel, m.number) == (n.channel, n.number)
}

// Whether an event sends, or receives, the message. `sends` is the side, as in the contracts' words: an event in its place would need arms
// in `mark_at` and `repeated` for those that carry nothing.
fn carries_it(event: Event, sends: bool, message: Message) -> bool
    ensures { result ≡ carries sends event message }
{
    match event {
        Event::Start | Event::Internal => false,
        Event::Send(m) => sends && is_same(m, message),
        Event::Receive(m) => !sends && is_same(m, message),
    }
}

// The first of states low to high of process p that sends, or receives, the message.
fn find(
    run: &[u8],
    index: &[u16],
    p: u16,
    low: u16,
    high: u16,
    sends: bool,
    message: Message,
) -> Option<u16>
    requires { Stretch run.now index.now p low high }
    ensures { Carrier (run_in run.now) p low high sends message result }
{
    // `low..=high` keeps a flag for its end, which costs a sixth more where pairing costs most.
    (low..high + 1).find(|&k| carries_it(event_at(run, index, p, k), sends, message))
}

// The entry of the marks for what is sent, or received, on a channel.
fn mark_at(sends: bool, channel: u16) -> usize
    ensures { result ≡ mark_at sends channel }
{
    if sends {
        return 2 * (channel as usize);
    }
    2 * (channel as usize) + 1
}

// Whether an earlier state sent, or received, the message of state k. Numbers that rise on a channel need no look back: the marks are above all so far.
fn repeated(
    run: &[u8],
    index: &[u16],
    marks: &mut [u64],
    p: u16,
    k: u16,
    sends: bool,
    message: Message,
) -> bool
    requires { Listed run.now index.now × IsState (run_in run.now) p k × Marking (run_in run.now) sends p k message.channel marks.old }
    ensures { Repeats (run_in run.now) p k sends message marks.old marks.new result }
{
    let i = mark_at(sends, message.channel);
    let number = message.number as u64;
    if marks[i] <= number {
        marks[i] = number + 1;
        false
    } else {
        find(run, index, p, 1, k - 1, sends, message).is_some()
    }
}

// Where to look for the next send on a channel: behind the last one found, which is 0 at first, a place ahead of all states.
fn behind(hint: u16, count: u16) -> u16
    ensures { 1 ≤ result }
{
    if hint < count { hint + 1 } else { 1 }
}

// The state of the channel's sender that sends the message.
fn send_of(run: &[u8], index: &[u16], hints: &mut [u16], message: Message) -> Option<u16>
    requires { Listed run.now index.now × (length hints.old ≡ 16) × (message.channel < (head_of run.now).channels) }
    ensures { SendIs (run_in run.now) message result }
{
    let c = message.channel as usize;
    let from = channel_at(run, message.channel).from;
    let count = count_of(index, from);
    let next = behind(hints[c], count);
    if let Some(near) = find(run, index, from, next, count, true, message) {
        hints[c] = near;
        return Some(near);
    }
    find(run, index, from, 1, count, true, message)
}

// Enters a receive and its send as each other's partner, where there is such a send; whether it is entered.
fn enter(run: &[u8], index: &mut [u16], hints: &mut [u16], p: u16, k: u16, message: Message) -> bool
    requires { Listed run.now index.old × (length hints.old ≡ 16) × (into (run_in run.now) p k ≡ Event.Receive message) }
    ensures received { Received (run_in run.now) p k index.old index.new result }
    ensures listed { Listed run.now index.new }
{
    let Some(l) = send_of(run, index, hints, message) else {
        return false;
    };
    let from = channel_at(run, message.channel).from;
    enter_partner(index, from, l, k);
    enter_partner(index, p, k, l);
    true
}

// Whether state k of process p is clear: no second send or receive, and no receive with no send. What it receives is entered then.
fn settle(
    run: &[u8],
    index: &mut [u16],
    marks: &mut [u64],
    hints: &mut [u16],
    p: u16,
    k: u16,
) -> bool
    requires { PairingAt run.now index.old marks.old hints.old p k × IsState (run_in run.now) p k }
    ensures settled { Settled (run_in run.now) p k index.old index.new marks.new result }
    ensures listed { Listed run.now index.new }
{
    match event_at(run, index, p, k) {
        Event::Start | Event::Internal => true,
        Event::Send(m) => !repeated(run, index, marks, p, k, true, m),
        Event::Receive(m) => {
            !repeated(run, index, marks, p, k, false, m) && enter(run, index, hints, p, k, m)
        }
    }
}

// The first faulty state of process p; what the states ahead of it receive is entered. No `find`: it tells nothing of what its closure
// changes, here the index.
fn pair_row(
    run: &[u8],
    index: &mut [u16],
    marks: &mut [u64],
    hints: &mut [u16],
    p: u16,
) -> Option<u16>
    requires { Listed run.now index.old × PairingTables marks.old hints.old × (p < (head_of run.now).processes) }
    ensures process_paired { ProcessPaired (run_in run.now) p index.old index.new result }
    ensures listed { Listed run.now index.new }
{
    for k in 1..=count_of(index, p) {
        if !settle(run, index, marks, hints, p, k) {
            return Some(k);
        }
    }
    None
}

// Every process: its first faulty state into `bad`, and the partners. `clock_faults` and `undone` fill a row by such a loop too, of one line:
// a function for the three would take that line as a closure, which here changes the index, the marks and the hints.
pub fn pair_all(run: &[u8], index: &mut [u16], bad: &mut [Option<u16>], n: u16)
    requires { NewlyListed run.now index.old n × (length bad.old ≡ 8) }
    ensures processes_paired { ProcessesPaired (run_in run.now) n bad.new index.new }
    ensures listed { Listed run.now index.new }
{
    let mut marks = [0u64; 32];
    let mut hints = [0u16; 16];
    for p in 0..n {
        bad[p as usize] = pair_row(run, index, &mut marks, &mut hints, p);
    }
}
