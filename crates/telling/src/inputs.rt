use scenario::{Name, Sizes};
use std::fmt;

// The sizes of a service, in the words of the line that chooses them.
#[derive(Drop)]
pub struct SizesText(pub Sizes);

impl fmt::Display for SizesText {
    fn fmt<W: fmt::Write>(&self, f: &mut fmt::Formatter<W>) -> fmt::Result {
        let Sizes {
            copies,
            rule,
            log,
            messages,
            clients,
        } = self.0;
        write!(f, "service copies {copies} rule {rule} log {log} ")?;
        write!(f, "messages {messages} clients {clients}")
    }
}

// What a line of this name should look like, or of any.
#[derive(Drop)]
pub struct Expected(pub Option<Name>);

impl fmt::Display for Expected {
    fn fmt<W: fmt::Write>(&self, f: &mut fmt::Formatter<W>) -> fmt::Result {
        match self.0 {
            Some(name) => write!(f, "expected: {}", name.form()),
            None => f.write_str(
                "expected one of elect, open, install, restart, read, correct, again, abandon, deliver, lose, double, copy, commit, reply, service",
            ),
        }
    }
}

// Bytes as text: what is not printable ASCII is shown as `?`.
#[derive(Drop)]
pub struct SafeText<'a>(pub &'a [u8]);

// The byte as a character, a blank for a tab, and `?` where it is not printable.
fn printable(byte: u8) -> char {
    match byte {
        b'\t' => ' ',
        b' '..=b'~' => byte as char,
        _ => '?',
    }
}

impl fmt::Display for SafeText<'_> {
    fn fmt<W: fmt::Write>(&self, f: &mut fmt::Formatter<W>) -> fmt::Result {
        for byte in self.0 {
            f.write_char(printable(*byte))?;
        }
        Ok(())
    }
}
