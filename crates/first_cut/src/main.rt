// Reads a run and a condition, and prints the first cut of the run at which the condition holds.
#![tactic(auto)]

ghost use Rattle.std.specs.Prelude.{◌≤◌, length, IfSome};

use files::words::print_made;
use files::{read_file, read_word};
use record::reading::head_of;
use std::env::FillError;
use std::io;
use std::rt::{Env, Files};

// Whether the command line has a word at this place.
fn has_word(env: &impl Env, word: usize) -> bool {
    let mut start = [0u8; 1];
    !matches!(env.arg(word, &mut start), Err(FillError::NotPresent))
}

// The file that the command line names at this place, or else the one of this name in the current folder.
fn read_named(
    rt: &(impl Files + Env),
    errors: &impl Print,
    word: usize,
    name: &[u8],
    buffer: &mut [u8],
) -> Option<usize>
    ensures { IfSome result (λ n. n ≤ length buffer.old) }
{
    if !has_word(rt, 2) {
        return read_file(rt, errors, name, buffer);
    }
    read_word(rt, errors, word, buffer)
}

fn text(rt: &impl Print, words: &[u8]) -> io::Result<()> {
    rt.write_all(words)
}

fn judge(rt: &impl Print, run: &[u8], cond: &[u8]) -> io::Result<()> {
    let mut places = [0u16; 8];
    let mut counts = [0u16; 16];
    let mut stamps = [0i32; 16];
    let answer = checker::finding::first_cut_listed(
        run,
        cond,
        &mut places,
        &mut counts,
        &mut stamps,
    );
    let head = head_of(run);
    let n = answers::filled(head.processes, &places);
    let m = answers::filled(head.channels, &counts);
    print_made(
        rt,
        |lines| answers::answer(answer, &places[..n], &counts[..m], &stamps, lines),
    )
}

// One byte more than a file may have, so that a longer one is seen to be too long.
fn main(rt: HostRuntime) -> io::Result<()> {
    let errors = rt.stderr();
    let mut run = [0u8; 65536];
    let mut cond = [0u8; 65536];
    let got_run = read_named(&rt, &errors, 1, b"run.rec", &mut run);
    let got_cond = read_named(&rt, &errors, 2, b"cond.rec", &mut cond);
    let Some(n) = got_run else {
        return text(&rt, b"unreadable run\n");
    };
    let Some(m) = got_cond else {
        return text(&rt, b"unreadable cond\n");
    };
    judge(&rt, &run[..n], &cond[..m])
}
