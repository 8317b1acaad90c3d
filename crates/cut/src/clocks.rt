// The clock test: a cut is consistent if place i of j's clock is less than i's chosen number, for all i and j that differ.
ghost use Rattle.std.specs.Prelude.{◌≡◌, ◌<◌, length};
ghost use Rattle.run.specs.Index.{clock_in, index_size};
ghost use Rattle.cut.specs.Clocks.{InTable, behind_of, too_low, ConsistentIs};

use run::index::clock_of;

// The first process that is behind j's clock.
fn behind(index: &[u16], cut: &[u16], j: usize) -> Option<usize>
    requires { (length index.now ≡ index_size) × InTable cut.now × (j < length cut.now) }
    ensures { result ≡ behind_of (clock_in index.now) cut.now j }
{
    let k = cut[j];
    let clock = clock_of(index, j as u16, k);
    // A `find` over the range costs three instructions more at each process.
    for i in 0..cut.len() {
        if (i != j) & (cut[i] <= clock[i]) {
            return Some(i);
        }
    }
    None
}

// Of the processes in order, the first whose clock somebody is behind: who is.
pub fn too_low(index: &[u16], cut: &[u16]) -> Option<usize>
    requires { (length index.now ≡ index_size) × InTable cut.now }
    ensures { result ≡ too_low (clock_in index.now) cut.now }
{
    for j in 0..cut.len() {
        if let Some(i) = behind(index, cut, j) {
            return Some(i);
        }
    }
    None
}

// No chosen state is before another, in a run whose clocks the index holds.
pub fn consistent(index: &[u16], cut: &[u16]) -> bool
    requires { (length index.now ≡ index_size) × InTable cut.now }
    ensures { ConsistentIs index.now cut.now result }
{
    too_low(index, cut).is_none()
}
