// 12 and 13: which states come after a circle, the clocks of all others, and which records have another. A state is done
// when the state before it is, and at a receive the state ahead of the send.
#![tactic(auto)]

ghost use Rattle.std.specs.Prelude.{◌≡◌, ◌≢◌, ◌≤◌, ◌<◌, length, replicate};
ghost use Rattle.std.specs.Option.{IfSome};
ghost use Rattle.model.specs.Run.{IsState};
ghost use Rattle.record.specs.Record.{head_of};
ghost use Rattle.run.specs.Said.{run_in};
ghost use Rattle.run.specs.Index.{HasSlot, Matched, index_size};
ghost use Rattle.judged.specs.Judged.{WrongClock};
ghost use Rattle.judged.specs.Inner.{Clocked};
ghost use Rattle.judged.specs.Firsts.{FirstOf, FirstsTo};
ghost use Rattle.judged.specs.Order.{AheadIs, SlotOrNone, ClockRoom, number_at, number_ahead, number_of, Written};
ghost use Rattle.judged.specs.Order.{Ordering, Advanced, Swept, Ordered, Compared};

use judged::Ahead;
use model::Event;
use record::bytes::u16_at;
use record::layout::CLOCK_PLACE;
use run::index::{clock_at, count_of, enter_clock, event_at, partner_of, place_of};
use states::held::channel_at;

// The state ahead of the send that state k of process p receives.
fn ahead_of(run: &[u8], index: &[u16], p: u16, k: u16) -> Option<Ahead>
    requires { Matched run.now index.now × IsState (run_in run.now) p k }
    ensures { AheadIs (run_in run.now) p k result }
{
    let Event::Receive(m) = event_at(run, index, p, k) else {
        return None;
    };
    Some(Ahead {
        process: channel_at(run, m.channel).from,
        state: partner_of(index, p, k) - 1,
    })
}

// Place i of the clock of state k of process p, 0 where k is 0.
fn number_at(index: &[u16], p: u16, k: u16, i: u16) -> u16
    requires { (length index.now ≡ index_size) × SlotOrNone p k × (i < 8) }
    ensures { result ≡ number_at index.now p k i }
{
    if k == 0 {
        return 0;
    }
    clock_at(index, p, k, i)
}

// Place i of the clock of the state ahead of the send, 0 where nothing is received.
fn number_ahead(index: &[u16], ahead: Option<Ahead>, i: u16) -> u16
    requires { (length index.now ≡ index_size) × IfSome ahead (λ a. HasSlot a.process a.state) × (i < 8) }
    ensures { result ≡ number_ahead index.now ahead i }
{
    ahead.map_or(0, |a| clock_at(index, a.process, a.state, i))
}

// Place i of the clock of state k of process p, by the rule.
fn number_of(index: &[u16], p: u16, k: u16, ahead: Option<Ahead>, i: u16) -> u16
    requires { ClockRoom index.now p k ahead × (i < 8) }
    ensures { result ≡ number_of index.now p k ahead i }
{
    if i == p {
        return k;
    }
    let own = number_at(index, p, k - 1, i);
    let other = number_ahead(index, ahead, i);
    own.max(other)
}

// Writes the clock of state k of process p, n numbers.
fn clock_row(index: &mut [u16], n: u16, p: u16, k: u16, ahead: Option<Ahead>)
    requires { ClockRoom index.old p k ahead × (n ≤ 8) × IfSome ahead (λ a. a.process ≢ p) }
    ensures { Written n p k ahead index.old index.new }
{
    for i in 0..n {
        let number = number_of(index, p, k, ahead, i);
        enter_clock(index, p, k, i, number);
    }
}

// Does the next state of process p if it can; whether it did.
fn advance(run: &[u8], index: &mut [u16], done: &mut [u16], n: u16, p: u16) -> bool
    requires { Ordering run.now index.old done.old n × (p < n) }
    ensures { Advanced run.now n p done.old done.new index.new result }
{
    let row = p as usize;
    let k = done[row];
    if count_of(index, p) <= k {
        return false;
    }
    let ahead = ahead_of(run, index, p, k + 1);
    if ahead.is_some_and(|a| done[a.process as usize] < a.state) {
        return false;
    }
    clock_row(index, n, p, k + 1, ahead);
    done[row] = k + 1;
    true
}

// A turn for each process; whether any went on.
fn sweep(run: &[u8], index: &mut [u16], done: &mut [u16], n: u16) -> bool
    requires { Ordering run.now index.old done.old n }
    ensures { Swept run.now n n done.old done.new index.new result }
{
    let mut moved = false;
    for p in 0..n {
        moved |= advance(run, index, done, n, p);
    }
    moved
}

// How many states of each process are clear of circles, into `done`, and their clocks.
pub fn order_all(run: &[u8], index: &mut [u16], done: &mut [u16], n: u16)
    requires { Matched run.now index.old × (done.old ≡ replicate 8 0) × (n ≡ (head_of run.now).processes) }
    ensures { Ordered run.now done.new index.new × Matched run.now index.new }
{
    while sweep(run, index, done, n) {}
}

// Whether the record of state k of process p has a clock number other than the table's.
fn differs(run: &[u8], index: &[u16], n: u16, p: u16, k: u16) -> bool
    requires { Clocked run.now index.now n × IsState (run_in run.now) p k }
    ensures { Compared run.now p k result }
{
    let at = place_of(index, p, k) + CLOCK_PLACE;
    (0..n).any(|i| u16_at(run, at + 2 * (i as usize)) != clock_at(index, p, k, i))
}

// The first state of process p with such a number.
fn clock_fault(run: &[u8], index: &[u16], n: u16, p: u16) -> Option<u16>
    requires { Clocked run.now index.now n × (p < n) }
    ensures { FirstOf run.now (WrongClock run.now) p result }
{
    (1..count_of(index, p) + 1).find(|&k| differs(run, index, n, p, k))
}

// Of every process, into `bad`.
pub fn clock_faults(run: &[u8], index: &[u16], bad: &mut [Option<u16>], n: u16)
    requires { Clocked run.now index.now n × (length bad.old ≡ 8) }
    ensures { FirstsTo run.now (WrongClock run.now) n bad.new }
{
    for p in 0..n {
        bad[p as usize] = clock_fault(run, index, n, p);
    }
}
