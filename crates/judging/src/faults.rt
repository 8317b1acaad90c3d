// The first record in file order among the first faulty states of the processes.
ghost use Rattle.std.specs.Prelude.{◌≡◌, ℕ, ◌<◌, get_or, None};
ghost use Rattle.std.specs.Option.{option_map};
ghost use Rattle.run.specs.Said.{place_of};
ghost use Rattle.judged.specs.Firsts.{Candidate, Earliest};

use run::index::place_of;

// The place of the first faulty state of process p.
fn place_in(run: &[u8], index: &[u16], bad: &[Option<u16>], p: u16) -> Option<usize>
    requires { Candidate run.now index.now bad.now p }
    ensures { result ≡ option_map (place_of run.now p) (get_or bad.now p None) }
{
    let k = bad[p as usize]?;
    Some(place_of(index, p, k))
}

// The lowest place of the first faulty states of processes 0 to n - 1.
pub(crate) fn earliest(run: &[u8], index: &[u16], bad: &[Option<u16>], n: u16) -> Option<usize>
    requires { (p : ℕ) → p < n → Candidate run.now index.now bad.now p }
    ensures { Earliest run.now n bad.now result }
{
    (0..n).filter_map(|p| place_in(run, index, bad, p)).min()
}
