// The refusals by name. specs/Refusal.antt ties each name to the paper's number.
ghost use Rattle.std.specs.Prelude.{◌≡◌};
ghost use Rattle.record.specs.Refusal.{number, refuse_if, refusal, at_fault};
ghost use Rattle.record.specs.Reason.{NamesReason};

use crate::{File, Refusal};

// Why a record, a file or a question is refused.
#[derive(Clone, Copy, PartialEq, Eq)]
pub enum Reason {
    TooLong,
    CutShort,
    WrongLength,
    WrongKind,
    Limit,
    Format,
    Name,
    Field,
    Start,
    Side,
    Pairing,
    Circle,
    Clock,
    NotLinear,
    NoRoom,
    WrongCut,
    NoChannel,
}

// The paper's number.
impl From<Reason> for u16 {
    ghost from_gives = { λ reason n. n ≡ number reason };

    fn from(reason: Reason) -> u16 {
        match reason {
            Reason::TooLong => 1,
            Reason::CutShort => 2,
            Reason::WrongLength => 3,
            Reason::WrongKind => 4,
            Reason::Limit => 5,
            Reason::Format => 6,
            Reason::Name => 7,
            Reason::Field => 8,
            Reason::Start => 9,
            Reason::Side => 10,
            Reason::Pairing => 11,
            Reason::Circle => 12,
            Reason::Clock => 13,
            Reason::NotLinear => 14,
            Reason::NoRoom => 15,
            Reason::WrongCut => 16,
            Reason::NoChannel => 17,
        }
    }
}

// By the paper's number. 0 and the numbers from 18 on are no refusal's, and are handed back.
impl TryFrom<u16> for Reason {
    type Error = u16;

    ghost try_from_gives = { NamesReason };

    fn try_from(number: u16) -> Result<Reason, u16> {
        match number {
            1 => Ok(Reason::TooLong),
            2 => Ok(Reason::CutShort),
            3 => Ok(Reason::WrongLength),
            4 => Ok(Reason::WrongKind),
            5 => Ok(Reason::Limit),
            6 => Ok(Reason::Format),
            7 => Ok(Reason::Name),
            8 => Ok(Reason::Field),
            9 => Ok(Reason::Start),
            10 => Ok(Reason::Side),
            11 => Ok(Reason::Pairing),
            12 => Ok(Reason::Circle),
            13 => Ok(Reason::Clock),
            14 => Ok(Reason::NotLinear),
            15 => Ok(Reason::NoRoom),
            16 => Ok(Reason::WrongCut),
            17 => Ok(Reason::NoChannel),
            _ => Err(number),
        }
    }
}

// One test of a chain: a record that fails it is refused.
#[tactic(auto, unfolding(crate::specs::Refusal::refuse_if))]
pub fn refuse_if(test: bool, reason: Reason) -> Result<(), Reason>
    ensures { result ≡ refuse_if test reason }
{
    if test { Err(reason) } else { Ok(()) }
}

// What a test says, as the refusal of the record at this place.
pub fn at_fault(file: File, place: usize, check: Result<(), Reason>) -> Result<(), Refusal>
    ensures { result ≡ at_fault file place check }
{
    check.map_err(|reason| refusal_of(file, reason, place))
}

// A refusal of a record that doesn't stand after the end.
pub fn refusal_of(file: File, reason: Reason, place: usize) -> Refusal
    ensures { result ≡ refusal file reason place }
{
    Refusal {
        file,
        reason,
        place,
        after: false,
    }
}
