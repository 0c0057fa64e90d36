ghost use Rattle.std.specs.Prelude.{◌≡◌, ◌<◌, ◌≤◌, length, OnSome};
ghost use Rattle.std.specs.Iterator.{at_most};

use crate::numbers::{decimal, integer};

// The words of a line that are not yet read.
#[derive(Drop)]
pub struct Words<'a> {
    rest: &'a [u8],
}

impl<'a> Iterator for Words<'a> {
    type Item = &'a [u8];

    ghost next_gives = { λ s r t. (length t.rest.now ≤ length s.rest.now) × OnSome r (length t.rest.now < length s.rest.now) };

    ghost remaining = { λ s. at_most (length s.rest.now) };

    fn next(&mut self) -> Option<&'a [u8]> {
        let text = self.rest.trim_ascii_start();
        if text.is_empty() {
            return None;
        }
        let blank = text.iter().position(|b| b.is_ascii_whitespace());
        let (word, rest) = text.split_at(blank.unwrap_or(text.len()));
        self.rest = rest;
        Some(word)
    }
}

impl<'a> Words<'a> {
    pub fn new(line: &'a [u8]) -> Words<'a> {
        Words { rest: line }
    }

    // Reads past one word, if it is the next.
    pub fn pass(&mut self, word: &[u8]) -> Option<()> {
        (self.next()? == word).then_some(())
    }

    // Whether no word is left.
    pub fn ended(&mut self) -> bool {
        self.next().is_none()
    }

    // The next word as a number of 32 bits. It stands alone, since with a copy of it in each caller the lines are read more slowly.
    #[inline(never)]
    pub fn number(&mut self) -> Option<u32>
        ensures left { length self.new.rest.now ≤ length self.old.rest.now }
    {
        decimal(self.next()?, u32::MAX)
    }

    // The same of a number that fits the type.
    pub fn unsigned<T: TryFrom<u32>>(&mut self) -> Option<T>
    where
        <T as TryFrom<u32>>::Error: Drop,
        ensures left { length self.new.rest.now ≤ length self.old.rest.now }
    {
        T::try_from(self.number()?).ok()
    }

    // The same with a sign.
    pub fn signed<T: TryFrom<i64>>(&mut self) -> Option<T>
    where
        <T as TryFrom<i64>>::Error: Drop,
        ensures left { length self.new.rest.now ≤ length self.old.rest.now }
    {
        T::try_from(integer(self.next()?)?).ok()
    }
}
