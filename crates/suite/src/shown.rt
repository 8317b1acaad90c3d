// The bytes shown for the answer of the search, with the part that they are.
use files::words::Hex;
use std::io;

// Where the part stands and how long it is, and then its bytes: an empty part has a file and a place too.
pub fn answer<'a>(
    rt: &impl Print,
    run: &'a [u8],
    cond: &'a [u8],
    places: &mut [u16],
) -> io::Result<()> {
    let answer = checker::finding::first_cut(run, cond, places);
    let part = checker::showing::shown_part(run, cond, answer);
    let bytes = Hex(checker::showing::shown(run, cond, answer));
    println!(rt; "shown {} {} {} {bytes}", part.file, part.place, part.count)
}
