// The kinds of a condition's records.
ghost use Rattle.condition.specs.Kind.{NamesKind};

use record::reasons::Reason;

#[derive(Clone, Copy, PartialEq, Eq)]
pub enum Kind {
    Head,
    Local,
    Channel,
    End,
}

// By the paper's number.
impl TryFrom<u16> for Kind {
    type Error = Reason;

    ghost try_from_gives = { NamesKind };

    fn try_from(number: u16) -> Result<Kind, Reason> {
        match number {
            4 => Ok(Kind::End),
            16 => Ok(Kind::Head),
            17 => Ok(Kind::Local),
            18 => Ok(Kind::Channel),
            _ => Err(Reason::WrongKind),
        }
    }
}
