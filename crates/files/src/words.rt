// Bytes, numbers and lines as the programs print them.
use std::{fmt, io};

// The lines that are made, in one write, so that no reader sees half an answer. 1,024 bytes are always enough (`theorems/proofs/Enough.antt`).
pub fn print_made<Make: FnOnce(&mut [u8]) -> Option<usize>>(
    rt: &impl Print,
    make: Make,
) -> io::Result<()>
    requires { Make.IsAlwaysCallable make }
{
    let mut lines = [0u8; 1024];
    let Some(length) = make(&mut lines) else {
        return Ok(());
    };
    rt.write_all(lines.get(..length).unwrap_or_default())
}

// Two digits for each byte, and a dash where there is none.
#[derive(Drop)]
pub struct Hex<'a>(pub &'a [u8]);

impl fmt::Display for Hex<'_> {
    fn fmt<W: fmt::Write>(&self, f: &mut fmt::Formatter<W>) -> fmt::Result {
        if self.0.is_empty() {
            return f.write_str("-");
        }
        for byte in self.0 {
            write!(f, "{byte:02x}")?;
        }
        Ok(())
    }
}

// Numbers, each behind a space.
#[derive(Drop)]
pub struct Numbers<'a, T>(pub &'a [T]);

impl<T: fmt::Display> fmt::Display for Numbers<'_, T> {
    fn fmt<W: fmt::Write>(&self, f: &mut fmt::Formatter<W>) -> fmt::Result {
        for number in self.0 {
            write!(f, " {number}")?;
        }
        Ok(())
    }
}
