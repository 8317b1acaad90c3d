// The index of a run: one lent table of 40,968 numbers, read and written only here. At 0 it has how many states each process has, at 8 where each stands in the
// file, at 4104 the other end of each send and receive, at 8200 the clock of each state, eight numbers a state.
ghost use Rattle.std.specs.Prelude.{◌≡◌, ◌+◌, ◌<◌, length, get_or, set, take, drop};
ghost use Rattle.model.specs.Run.{into, IsState};
ghost use Rattle.run.specs.Said.{run_in};
ghost use Rattle.run.specs.Index.{index_size, place_at, partner_at, clock_row, clock_in, HasSlot, Listed, HasRoom, with_state};

use model::Event;
use states::held::state_at;

pub const INDEX_SIZE: usize = 40968;

// How many states process p has.
pub fn count_of(index: &[u16], p: u16) -> u16
    requires { (length index.now ≡ index_size) × (p < 8) }
    ensures { result ≡ get_or index.now p 0 }
{
    let row = p as usize;
    index[row]
}

// The byte place of a state's record.
pub fn place_of(index: &[u16], p: u16, k: u16) -> usize
    requires { (length index.now ≡ index_size) × HasSlot p k }
    ensures { result ≡ get_or index.now (place_at p k) 0 }
{
    let entry = 8 + (512 * (p as usize) + (k as usize - 1));
    index[entry] as usize
}

// The state at the other end of its send or its receive.
pub fn partner_of(index: &[u16], p: u16, k: u16) -> u16
    requires { (length index.now ≡ index_size) × HasSlot p k }
    ensures { result ≡ get_or index.now (partner_at p k) 0 }
{
    let entry = 4104 + (512 * (p as usize) + (k as usize - 1));
    index[entry]
}

// Place i of its clock.
pub fn clock_at(index: &[u16], p: u16, k: u16, i: u16) -> u16
    requires { (length index.now ≡ index_size) × HasSlot p k × (i < 8) }
    ensures { result ≡ clock_in index.now p k i }
{
    let entry = 8200 + 8 * (512 * (p as usize) + (k as usize - 1)) + i as usize;
    index[entry]
}

// Its clock, a number for each of eight processes.
pub fn clock_of<'a>(index: &'a [u16], p: u16, k: u16) -> &'a [u16]
    requires { (length index.now ≡ index_size) × HasSlot p k }
    ensures { result.now ≡ take 8 (drop (clock_row p k) index.now) }
{
    let entry = 8200 + 8 * (512 * (p as usize) + (k as usize - 1));
    &index[entry..entry + 8]
}

// What led into it.
pub fn event_at(run: &[u8], index: &[u16], p: u16, k: u16) -> Event
    requires { Listed run.now index.now × IsState (run_in run.now) p k }
    ensures { result ≡ into (run_in run.now) p k }
{
    let place = place_of(index, p, k);
    state_at(run, place).event
}

// Process p has one state more, at the place at.
pub(crate) fn keep(index: &mut [u16], p: u16, at: usize)
    requires { HasRoom index.old p at }
    ensures { index.new ≡ with_state index.old p at }
{
    let row = p as usize;
    let count = index[row];
    let place = 8 + (512 * row + count as usize);
    index[place] = at as u16;
    index[row] = count + 1;
}

// The other end of what state k of process p sends or receives.
pub fn enter_partner(index: &mut [u16], p: u16, k: u16, partner: u16)
    requires { (length index.old ≡ index_size) × HasSlot p k }
    ensures { index.new ≡ set index.old (partner_at p k) partner }
{
    let entry = 4104 + (512 * (p as usize) + (k as usize - 1));
    index[entry] = partner;
}

// Place i of its clock.
pub fn enter_clock(index: &mut [u16], p: u16, k: u16, i: u16, number: u16)
    requires { (length index.old ≡ index_size) × HasSlot p k × (i < 8) }
    ensures { index.new ≡ set index.old (clock_row p k + i) number }
{
    let entry = 8200 + 8 * (512 * (p as usize) + (k as usize - 1)) + i as usize;
    index[entry] = number;
}
