ghost use Rattle.std.specs.Prelude.{◌≤◌, length, Some};
ghost use Rattle.scenario.specs.Words.{rule_word};

use crate::words::Words;
use std::fmt;

#[derive(Clone, Copy)]
pub enum Rule {
    Majority,
    EveryCopy,
}

impl Rule {
    fn read(word: &[u8]) -> Option<Rule> {
        match word {
            b"majority" => Some(Rule::Majority),
            b"every" => Some(Rule::EveryCopy),
            _ => None,
        }
    }
}

impl fmt::Display for Rule {
    ghost output = { λ rule. Some (rule_word rule) };

    fn fmt<W: fmt::Write>(&self, f: &mut fmt::Formatter<W>) -> fmt::Result {
        f.write_str(match self {
            Rule::Majority => "majority",
            Rule::EveryCopy => "every",
        })
    }
}

// The sizes of a service, and its vote rule.
#[derive(Clone, Copy)]
pub struct Sizes {
    pub copies: u8,
    pub rule: Rule,
    pub log: u16,
    pub messages: u16,
    pub clients: u8,
}

impl Sizes {
    // What a scenario has that chooses none.
    pub fn standard() -> Sizes {
        Sizes {
            copies: 3,
            rule: Rule::Majority,
            log: 64,
            messages: 32,
            clients: 4,
        }
    }

    // Reads the part that the word names.
    fn choose(&mut self, part: &[u8], words: &mut Words) -> Option<()>
        ensures left { length words.new.rest.now ≤ length words.old.rest.now }
    {
        match part {
            b"copies" => self.copies = words.unsigned()?,
            b"rule" => self.rule = Rule::read(words.next()?)?,
            b"log" => self.log = words.unsigned()?,
            b"messages" => self.messages = words.unsigned()?,
            b"clients" => self.clients = words.unsigned()?,
            _ => return None,
        }
        Some(())
    }

    // The sizes that the rest of the line chooses; what it leaves out is as in `standard`.
    pub fn read(words: &mut Words) -> Option<Sizes> {
        let mut sizes = Sizes::standard();
        while let Some(part) = words.next() {
            sizes.choose(part, words)?;
        }
        Some(sizes)
    }
}
