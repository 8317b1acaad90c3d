// The kinds of a run's records.
ghost use Rattle.record.specs.Kind.{NamesKind};

use crate::reasons::Reason;

#[derive(Clone, Copy, PartialEq, Eq)]
pub enum Kind {
    Head,
    Channel,
    State,
    End,
}

// By the paper's number.
impl TryFrom<u16> for Kind {
    type Error = Reason;

    ghost try_from_gives = { NamesKind };

    fn try_from(number: u16) -> Result<Kind, Reason> {
        match number {
            1 => Ok(Kind::Head),
            2 => Ok(Kind::Channel),
            3 => Ok(Kind::State),
            4 => Ok(Kind::End),
            _ => Err(Reason::WrongKind),
        }
    }
}
