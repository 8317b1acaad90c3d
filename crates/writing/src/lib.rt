// Words, numbers and lines put into a lent buffer one after the other, as far as it reaches. Where they end is told in any case.
#![tactic(auto)]

ghost use Rattle.std.specs.Prelude.{◌≡◌, ◌≤◌};
ghost use Rattle.writing.specs.Text.{decimal, pair_line, row_lines, signed as Lines·signed, spaced as Lines·spaced};

// The bytes up to `at` are put: past the buffer nothing is stored, and the largest number stays, as no buffer reaches that far.
#[derive(Drop)]
pub struct Lines<'a> {
    buffer: &'a mut [u8],
    at: usize,
    ghost within: { at ≤ 18446744073709551615 },
}

impl<'a> Lines<'a> {
    ghost use Rattle.writing.specs.Stored.{Put};

    // Where the bytes up to a place are put already.
    pub fn behind(buffer: &'a mut [u8], at: usize) -> Lines<'a>
        ensures same_reference { result.buffer.ghost_name ≡ buffer.entry.ghost_name }
        ensures place { result.at ≡ at }
        ensures bytes { result.buffer.now ≡ buffer.old }
    {
        Lines { buffer, at }
    }

    pub fn new(buffer: &'a mut [u8]) -> Lines<'a>
        ensures same_reference { result.buffer.ghost_name ≡ buffer.entry.ghost_name }
        ensures front { result.at ≡ 0 }
        ensures bytes { result.buffer.now ≡ buffer.old }
    {
        Lines::behind(buffer, 0)
    }

    // How many bytes are put, or would be where the buffer reached as far.
    pub fn end(&self) -> usize
        ensures { result ≡ self.now.at }
    {
        self.at
    }

    pub fn text(&mut self, words: &[u8])
        ensures { Put words.now self.old self.new }
    {
        let start = self.at.min(self.buffer.len());
        let n = words.len().min(self.buffer.len() - start);
        self.buffer[start..start + n].copy_from_slice(&words[..n]);
        self.at = self.at.saturating_add(words.len());
    }

    pub fn number(&mut self, n: usize)
        ensures { Put (decimal n) self.old self.new }
    {
        let mut digits = [0u8; 20];
        let k = io::decimal(n as u64, &mut digits);
        self.text(&digits[..k]);
    }

    // `-5`
    pub fn signed(&mut self, x: i32)
        ensures { Put (Lines·signed x) self.old self.new }
    {
        let sign: &[u8] = if x < 0 { b"-" } else { b"" };
        self.text(sign);
        self.number(x.unsigned_abs() as usize);
    }

    // ` 7`: a number after a word.
    pub fn spaced(&mut self, n: usize)
        ensures { Put (Lines·spaced n) self.old self.new }
    {
        self.text(b" ");
        self.number(n);
    }

    // `state 0 2`
    pub fn pair_line(&mut self, word: &[u8], a: usize, b: usize)
        ensures { Put (pair_line word.now a b) self.old self.new }
    {
        self.text(word);
        self.spaced(a);
        self.spaced(b);
        self.text(b"\n");
    }

    // A line for each place: a process and its state, or a channel and its messages.
    pub fn row_lines(&mut self, word: &[u8], row: &[u16])
        ensures { Put (row_lines word.now 0 row.now) self.old self.new }
    {
        for (i, &number) in row.iter().enumerate() {
            self.pair_line(word, i, usize::from(number));
        }
    }
}
