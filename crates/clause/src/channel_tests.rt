// The channel tests by what they ask: 1 to 3 how many messages are in transit, which the caller knows, 4 to 7 their stamps, which are looked for in the
// sender's history unless the channel is empty. 8 and 9 aren't linear, so no condition has them.
ghost use Rattle.std.specs.Prelude.{◌≡◌, List, [], ℕ, ◌≤◌, length};
ghost use Rattle.model.specs.declared.Message.{Message};
ghost use Rattle.model.specs.Cut.{in_transit};
ghost use Rattle.model.specs.Clause.{passes};
ghost use Rattle.run.specs.Said.{run_in};
ghost use Rattle.condition.specs.Clauses.{test_of};
ghost use Rattle.transit.specs.Asked.{Asked};
ghost use Rattle.transit.specs.Load.{LoadOf};
ghost use Rattle.clause.specs.ChannelTests.{CountKnown};

use condition::Test;
use record::bytes::signed_of;
use run::indexed::Indexed;
use transit::Load;
use transit::scan::{has_stamp, load_on};

// Tests 1 to 3.
fn count_passes(test: u16, operand: u32, count: usize) -> bool
    requires { (1 ≤ test) × (test ≤ 3) }
    ensures { (ms : List Message) → count ≡ length ms → result ≡ passes (test_of test operand) ms }
{
    let limit = operand as usize;
    match test {
        1 => count <= limit,
        2 => limit <= count,
        _ => count == limit,
    }
}

// Tests 4 to 7 of an empty channel, whatever stamp they ask for.
fn empty_passes(test: u16) -> bool
    requires { (4 ≤ test) × (test ≤ 7) }
    ensures { (operand : ℕ) → result ≡ passes (test_of test operand) [] }
{
    match test {
        4 => false,
        5 => true,
        6 => true,
        _ => false,
    }
}

// Tests 6 and 7.
fn lowest_passes(test: u16, operand: u32, load: Option<Load>) -> bool
    requires { (6 ≤ test) × (test ≤ 7) }
    ensures { (ms : List Message) → LoadOf ms load → result ≡ passes (test_of test operand) ms }
{
    let Some(load) = load else {
        return empty_passes(test);
    };
    let x = signed_of(operand);
    if test == 6 {
        x <= load.lowest
    } else {
        load.lowest <= x
    }
}

// Tests 4 to 7, by a look through the sender's history.
fn stamps_pass(run: &Indexed<'_>, cut: &[u16], clause: Test) -> bool
    requires { Asked run.now.run cut.now clause.channel × (4 ≤ clause.test) × (clause.test ≤ 7) }
    ensures { result ≡ passes (test_of clause.test clause.operand) (in_transit (run_in run.now.run) cut.now clause.channel) }
{
    let test = clause.test;
    match test {
        4 => has_stamp(run, cut, clause.channel, signed_of(clause.operand)),
        5 => !has_stamp(run, cut, clause.channel, signed_of(clause.operand)),
        _ => lowest_passes(test, clause.operand, load_on(run, cut, clause.channel)),
    }
}

// Whether a channel clause holds at a cut, of whose channel it is known how many messages are in transit.
pub fn channel_passes(run: &Indexed<'_>, cut: &[u16], clause: Test, count: usize) -> bool
    requires { CountKnown run.now.run cut.now clause count }
    ensures { result ≡ passes (test_of clause.test clause.operand) (in_transit (run_in run.now.run) cut.now clause.channel) }
{
    if clause.test <= 3 {
        return count_passes(clause.test, clause.operand, count);
    }
    if count == 0 {
        return empty_passes(clause.test);
    }
    stamps_pass(run, cut, clause)
}
