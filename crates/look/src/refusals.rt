// A refusal in words, with the bytes of the refused record.
use files::words::Hex;
use reader::shown::refused_bytes;
use record::Refusal;
use record::reasons::Reason;
use std::{fmt, io};

// What is wrong.
#[derive(Drop)]
struct Words(Reason);

impl fmt::Display for Words {
    fn fmt<W: fmt::Write>(&self, f: &mut fmt::Formatter<W>) -> fmt::Result {
        f.write_str(match self.0 {
            Reason::TooLong => "the file is over 65,535 bytes",
            Reason::CutShort => "the record isn't whole, or the end is missing",
            Reason::WrongLength => "the record's length is wrong",
            Reason::WrongKind =>
                "the record's kind is unknown or out of turn, or bytes follow the end",
            Reason::Limit =>
                "no process or over 8, over 16 channels, over 32 clauses, or over 512 states of a process",
            Reason::Format => "the run's format isn't 1",
            Reason::Name => "a process, channel or value that doesn't exist",
            Reason::Field =>
                "an unknown event, comparison or test, or an unused field that isn't zero",
            Reason::Start => "a process doesn't begin with its start, or has no state",
            Reason::Side => "a send or receive by another process than the channel's",
            Reason::Pairing =>
                "a message is sent twice, received twice, or received and never sent",
            Reason::Circle => "a state is on a circle or after one",
            Reason::Clock => "a clock number is other than the rule's",
            Reason::NotLinear | Reason::NoRoom | Reason::WrongCut | Reason::NoChannel => {
                "the test isn't linear, so no first cut is sure to exist"
            }
        })
    }
}

// Of a file that is a run or a condition.
pub fn show<'a>(rt: &impl Print, bytes: &'a [u8], refusal: Refusal) -> io::Result<()> {
    let Refusal {
        file,
        reason,
        place,
        ..
    } = refusal;
    let number = u16::from(reason);
    println!(rt; "{place} refused {file} {number} {}", Words(reason))?;
    println!(rt;
        "{place} bytes {}",
        Hex(refused_bytes(bytes, bytes, refusal))
    )
}
