// Prints what stands in a run or in a condition, record by record, in words; docs/FORMAT.md has the lines.
#![tactic(auto)]

mod circles;
mod conditions;
mod records;
mod refusals;
mod runs;

use std::io;

// A condition begins with a record of kind 16; whatever else there is is taken for a run.
fn show(rt: &impl Print, bytes: &[u8]) -> io::Result<()> {
    if bytes.get(2..4) == Some(&[16, 0]) {
        conditions::show(rt, bytes)
    } else {
        runs::show(rt, bytes)
    }
}

// One byte more than a file may have, so that a longer one is seen to be too long.
fn main(rt: HostRuntime) -> io::Result<()> {
    let mut bytes = [0u8; 65536];
    let Some(n) = files::read_word(&rt, &rt.stderr(), 1, &mut bytes) else {
        return Ok(());
    };
    show(&rt, &bytes[..n])
}
