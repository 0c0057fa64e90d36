ghost use Rattle.std.specs.Prelude.{◌≡◌, ◌<◌, ◌++◌, length, MatchOption};
ghost use Rattle.std.specs.Iterator.{at_most};
ghost use Rattle.scenario.specs.Lines.{first_line, before_comment};

// The lines of a text that are not yet read, and the number of the last one that was. Each comes with
// its number, from 1 on, and its newline if it has one.
#[derive(Clone, Copy)]
pub struct Lines<'a> {
    pub rest: &'a [u8],
    pub number: u64,
}

impl<'a> Lines<'a> {
    pub fn new(text: &'a [u8]) -> Lines<'a> {
        Lines {
            rest: text,
            number: 0,
        }
    }
}

impl<'a> Iterator for Lines<'a> {
    type Item = (u64, &'a [u8]);

    ghost next_gives = { λ s r t. MatchOption r (length s.rest.now ≡ 0) (λ x. (length t.rest.now < length s.rest.now) × (s.rest.now ≡ x.1.now ++ t.rest.now) × (x.1.now ≡ first_line s.rest.now)) };

    ghost remaining = { λ s. at_most (length s.rest.now) };

    fn next(&mut self) -> Option<(u64, &'a [u8])> {
        let line = self.rest.split_inclusive(|b| *b == b'\n').next()?;
        self.rest = &self.rest[line.len()..];
        self.number = self.number.wrapping_add(1);
        Some((self.number, line))
    }
}

// What stands before the first byte `#`, or all.
pub fn before_comment(line: &[u8]) -> &[u8]
    ensures { result.now ≡ before_comment line.now }
{
    line.split(|b| *b == b'#').next().unwrap_or(line)
}
