// Whether numbers are a cut of the run: one state of each process.
ghost use Rattle.std.specs.Prelude.{◌≡◌, ◌↔◌, ◌&&◌, not, eqb, leb, List, true, ℕ, ◌≤◌, ◌<◌, length, get_or};
ghost use Rattle.model.specs.Cut.{IsCut};
ghost use Rattle.record.specs.Record.{head_of};
ghost use Rattle.run.specs.Said.{run_in};
ghost use Rattle.run.specs.Index.{Listed, index_size};

use run::index::count_of;

// Whether process p has a state of this number.
fn has_state(index: &[u16], p: u16, number: u16) -> bool
    requires { (length index.now ≡ index_size) × (p < 8) }
    ensures { result ≡ (not (eqb number 0) && leb number (get_or index.now p 0)) }
{
    (number != 0) & (number <= count_of(index, p))
}

// Of a run of n processes whose states the index has.
pub fn is_cut(index: &[u16], cut: &[u16], n: u16) -> bool
    requires { (length index.now ≡ index_size) × (n ≤ 8) }
    ensures { (s : List ℕ) → Listed s index.now → n ≡ (head_of s).processes → (result ≡ true) ↔ IsCut (run_in s) cut.now }
{
    if cut.len() != n as usize {
        return false;
    }
    (0..n).all(|p| has_state(index, p, cut[p as usize]))
}
