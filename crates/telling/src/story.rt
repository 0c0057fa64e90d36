use crate::calls::CallText;
use crate::inputs::{Expected, SafeText, SizesText};
use crate::outcomes::{INDENT, tell_answer, tell_fault};
use delivery::Effect;
use kinds::Place;
use phrases::BriefText;
use relay::Message;
use scenario::{Line, Lines, Memory, Name, Rule, Sizes, read_line};
use service::{Call, perform};
use state::Service;
use std::alloc::{AllocError, Global};
use std::fmt::Write;
use votes::{EveryCopy, Majority, VoteRule};

// A service that is told of: the text that tells it, and the memory that its steps are lent.
#[derive(Drop)]
pub struct Story<'a, R> {
    pub out: &'a mut String,
    pub service: Service<R>,
    pub memory: Memory,
}

// A line that cannot be read, at most 60 bytes of it.
fn tell_unreadable(
    out: &mut String,
    line: u64,
    text: &[u8],
    name: Option<Name>,
) -> Result<(), AllocError> {
    let start = SafeText(&text[..text.len().min(60)]);
    let rest = if text.len() > 60 { ".." } else { "" };
    writeln!(
        out,
        "line {line}: cannot read \"{start}{rest}\": {}",
        Expected(name)
    )
}

fn tell_asked(
    out: &mut String,
    line: u64,
    call: Call<Place>,
    m: Option<Message<Place>>,
) -> Result<(), AllocError> {
    write!(out, "line {line}: {}", CallText(call))?;
    match m {
        Some(m) => writeln!(out, " ({})", BriefText(m)),
        None => writeln!(out),
    }
}

// An empty line where narration begins. It answers whether narration goes on: a blank line leaves that as it was.
fn tell_break(out: &mut String, narrated: bool, line: &Line) -> Result<bool, AllocError> {
    match line {
        Line::Blank => Ok(narrated),
        Line::Narration(_) => {
            if !narrated {
                writeln!(out)?;
            }
            Ok(true)
        }
        _ => Ok(false),
    }
}

impl<R: VoteRule> Story<'_, R> {
    // The message at a place of the table, if one stands there.
    pub fn message(&self, place: u32) -> Option<Message<Place>> {
        self.memory.message(self.service.table.count, place)
    }

    // The message that the step takes, loses or doubles.
    fn handled(&self, call: &Call<Place>) -> Option<Message<Place>> {
        match call {
            Call::Deliver { place } | Call::Lose { place } | Call::Double { place } => {
                self.message(*place)
            }
            _ => None,
        }
    }

    // Carries the step out, and tells what was asked and what came of it.
    fn tell_step(&mut self, line: u64, call: Call<Place>) -> Result<(), AllocError> {
        let m = self.handled(&call);
        tell_asked(self.out, line, call, m)?;
        let before = self.service.table.count;
        let came = perform(
            &mut self.service,
            &mut self.memory.entries,
            &mut self.memory.messages,
            &mut self.memory.kept,
            call,
        );
        match (came, m, call) {
            (Err(fault) | Ok(Effect::Dropped(fault)), _, _) => tell_fault(self.out, fault, &call),
            (Ok(Effect::Answered(answer)), Some(m), _) => tell_answer(self.out, &m, answer),
            (Ok(_), Some(m), Call::Deliver { .. }) => self.tell_delivered(before, &m),
            (Ok(Effect::Done(n)), _, _) => self.tell_done(&call, n),
            _ => Ok(()),
        }
    }

    fn tell_line(&mut self, number: u64, line: Line) -> Result<(), AllocError> {
        match line {
            Line::Blank => Ok(()),
            Line::Narration(text) => writeln!(self.out, "{}", SafeText(text)),
            Line::Unreadable(text, name) => tell_unreadable(self.out, number, text, name),
            Line::Step(call) => self.tell_step(number, call),
            Line::Choice(sizes) => {
                writeln!(self.out, "line {number}: {}", SizesText(sizes))?;
                writeln!(self.out, "{INDENT}not taken: the service is made already")
            }
        }
    }

    fn tell_lines(&mut self, lines: Lines) -> Result<(), AllocError> {
        let mut narrated = false;
        for (number, bytes) in lines {
            let line = read_line(bytes);
            narrated = tell_break(self.out, narrated, &line)?;
            self.tell_line(number, line)?;
        }
        Ok(())
    }
}

// Tells what stands before the first step. The sizes are those that a line chooses, else the standard
// ones; the lines are those that are left.
fn tell_prelude<'a>(
    out: &mut String,
    mut lines: Lines<'a>,
) -> Result<(Sizes, Lines<'a>), AllocError> {
    let mut before = lines;
    while let Some((number, bytes)) = lines.next() {
        match read_line(bytes) {
            Line::Blank => {}
            Line::Narration(text) => writeln!(out, "{}", SafeText(text))?,
            Line::Unreadable(text, name) => tell_unreadable(out, number, text, name)?,
            Line::Step(_) => return Ok((Sizes::standard(), before)),
            Line::Choice(sizes) => {
                write!(out, "line {number}: ")?;
                return Ok((sizes, lines));
            }
        }
        before = lines;
    }
    Ok((Sizes::standard(), lines))
}

// Makes a service and tells the lines and the tables. It is false where the sizes are refused. It stands
// alone, since a copy of it in `tell` would take its stack while the other one runs.
#[inline(never)]
fn tell_service<R: VoteRule>(
    out: &mut String,
    heap: Global,
    rule: R,
    sizes: Sizes,
    lines: Lines,
) -> Result<bool, AllocError> {
    let memory = Memory::new(heap, &sizes)?;
    let made = state::new_service(
        rule,
        sizes.log,
        sizes.messages,
        sizes.clients,
        &memory.entries,
        &memory.messages,
        &memory.kept,
    );
    writeln!(out, "{}", SizesText(sizes))?;
    match made {
        Ok(service) => {
            let mut story = Story {
                out,
                service,
                memory,
            };
            story.tell_lines(lines)?;
            story.tell_tables()?;
            Ok(true)
        }
        Err(fault) => {
            tell_fault(out, fault, &Call::Open)?;
            Ok(false)
        }
    }
}

// Tells a whole scenario. Where the chosen sizes are refused, the service has the standard ones.
pub fn tell(out: &mut String, heap: Global, text: &[u8]) -> anyhow::Result<()> {
    let (sizes, lines) = tell_prelude(out, Lines::new(text))?;
    let told = match sizes.rule {
        Rule::Majority => tell_service(out, heap, Majority::new(sizes.copies), sizes, lines)?,
        Rule::EveryCopy => tell_service(out, heap, EveryCopy::new(sizes.copies), sizes, lines)?,
    };
    if !told {
        let standard = Sizes::standard();
        tell_service(out, heap, Majority::new(standard.copies), standard, lines)?;
    }
    Ok(())
}
