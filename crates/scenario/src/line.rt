use crate::bytes::before_comment;
use crate::sizes::Sizes;
use crate::steps::{Name, read_step};
use crate::words::Words;
use kinds::Place;
use service::Call;

// What a line is.
#[derive(Drop)]
pub enum Line<'a> {
    Blank,
    // A comment that stands alone.
    Narration(&'a [u8]),
    Choice(Sizes),
    Step(Call<Place>),
    // No line of a scenario, with its first word if that is known.
    Unreadable(&'a [u8], Option<Name>),
}

// A line without its comment, which is not blank, or, where it is unreadable, its first word if that is known.
fn read_words<'a>(text: &[u8]) -> Result<Line<'a>, Option<Name>> {
    let mut words = Words::new(text);
    let name = words.next().and_then(Name::read).ok_or(None)?;
    match name {
        Name::Service => Ok(Line::Choice(Sizes::read(&mut words).ok_or(Some(name))?)),
        _ => Ok(Line::Step(read_step(name, &mut words).ok_or(Some(name))?)),
    }
}

// Reads one line of any bytes.
pub fn read_line<'a>(line: &'a [u8]) -> Line<'a> {
    let text = line.trim_ascii();
    match text.first() {
        None => Line::Blank,
        Some(b'#') => Line::Narration(text),
        Some(_) => {
            let text = before_comment(text).trim_ascii();
            read_words(text).unwrap_or_else(|name| Line::Unreadable(text, name))
        }
    }
}
