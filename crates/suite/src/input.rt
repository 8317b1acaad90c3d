// Cases from standard input.
//
// A case is, little-endian: the question (1 byte), the lent places, or for all channels those of the counts (1) and of the stamps (1), or the channel or the
// byte place asked (2), the number of cut numbers (2), the length of the run (4), the length of the condition (4), then the cut numbers (2 each), the run,
// the condition.
ghost use Rattle.std.specs.Prelude.{◌≡◌, ◌≤◌, length, IfOk};

use files::fill;
use std::io::Read;

#[derive(Clone, Copy)]
pub struct Case<'a> {
    pub question: u8,
    pub extra: u16,
    pub cut: &'a [u16],
    pub run: &'a [u8],
    pub cond: &'a [u8],
}

// Where the parts of a case come to stand.
#[derive(Drop)]
pub struct Room {
    pub cut: [u16; 24],
    pub run: [u8; 66000],
    pub cond: [u8; 66000],
}

// The input ends within a case, or a part is longer than its room.
#[derive(Drop)]
pub struct Short;

// Reads n bytes to the front of the buffer.
fn read_part<'a>(input: &mut impl Read, buffer: &'a mut [u8], n: usize) -> Result<&'a [u8], Short>
    ensures { IfOk result (λ part. (length part.now ≡ n) × (n ≤ length buffer.old)) }
{
    let part = buffer.get_mut(..n).ok_or(Short)?;
    let (came, _) = fill(input, part);
    if came < n {
        return Err(Short);
    }
    Ok(part)
}

// Reads n numbers to the front of the row, two bytes each.
fn read_numbers<'a>(input: &mut impl Read, row: &'a mut [u16], n: usize) -> Result<&'a [u16], Short>
    ensures { IfOk result (λ part. (length part.now ≡ n) × (n ≤ length row.old)) }
{
    let mut bytes = [0u8; 48];
    let numbers = row.get_mut(..n).ok_or(Short)?;
    let (pairs, _) = read_part(input, &mut bytes, 2 * n)?.as_chunks();
    for (number, pair) in numbers.iter_mut().zip(pairs) {
        *number = u16::from_le_bytes(*pair);
    }
    Ok(numbers)
}

// The next case; none where the input ends ahead of it.
pub fn next_case<'a>(input: &mut impl Read, room: &'a mut Room) -> Result<Option<Case<'a>>, Short> {
    let mut head = [0u8; 13];
    let (came, _) = fill(input, &mut head);
    if came == 0 {
        return Ok(None);
    }
    if came < head.len() {
        return Err(Short);
    }
    let [question, e0, e1, n0, n1, r0, r1, r2, r3, c0, c1, c2, c3] = head;
    let Room { cut, run, cond } = room;
    let cut = read_numbers(input, cut, usize::from(u16::from_le_bytes([n0, n1])))?;
    let run = read_part(input, run, u32::from_le_bytes([r0, r1, r2, r3]) as usize)?;
    let cond = read_part(input, cond, u32::from_le_bytes([c0, c1, c2, c3]) as usize)?;
    Ok(Some(Case {
        question,
        extra: u16::from_le_bytes([e0, e1]),
        cut,
        run,
        cond,
    }))
}
