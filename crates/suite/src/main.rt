// Reads questions from standard input until it ends, and prints the answer to each.
#![tactic(auto)]

use crate::input::{Room, Short, next_case};
use std::io;
use std::io::Read;

mod input;
mod printing;
mod records;
mod reply;
mod shown;

// Answers the next case, and says whether to go on.
fn turn(rt: &impl Print, input: &mut impl Read, room: &mut Room) -> io::Result<bool> {
    match next_case(input, room) {
        Ok(Some(case)) => {
            reply::answer(rt, case)?;
            Ok(true)
        }
        Ok(None) => Ok(false),
        Err(Short) => {
            println!(rt; "cut short")?;
            Ok(false)
        }
    }
}

fn main(rt: HostRuntime) -> io::Result<()> {
    let mut input = rt.stdin();
    let mut room = Room {
        cut: [0; 24],
        run: [0; 66000],
        cond: [0; 66000],
    };
    // A proved loop has to end, and nothing says that the input does: no run uses up this many turns.
    for _ in 0..u64::MAX {
        if !turn(&rt, &mut input, &mut room)? {
            break;
        }
    }
    Ok(())
}
