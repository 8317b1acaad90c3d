// What a cut is sought by, lent together: an accepted run with its index, and the places of clauses that are known beside its head.
ghost use Rattle.search.specs.Search.{Given};
ghost use Rattle.search.specs.Sought.{SoughtSeen};

use run::indexed::Indexed;
use std::marker::Model;

#[derive(Drop)]
pub struct Sought<'a> {
    pub run: &'a Indexed<'a>,
    pub cond: &'a [u8],
    pub clauses: &'a [u16],
}

impl<'a> Model for Sought<'a> {
    ghost Value = { SoughtSeen };

    ghost view = { λ r. record { run = r.run.now.run; index = r.run.now.index; cond = r.cond.now; clauses = r.clauses.now } };

    ghost invariant = { λ r. Given r.run.now.run r.cond.now r.run.now.index r.clauses.now };
}
