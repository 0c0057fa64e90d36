use crate::sentences::sentence;
use crate::story::Story;
use client::Answer;
use kinds::Place;
use phrases::{EntriesText, MessageText, OutcomeText, RowText, SessionText, ValueText};
use relay::{Body, Message, Relay, Row, Snapshot};
use service::Call;
use state::ServiceFault;
use std::alloc::AllocError;
use std::fmt::Write;
use votes::VoteRule;

pub const INDENT: &str = "         ";

// A refusal or a drop, with its number, its layer and its reason.
pub fn tell_fault(
    out: &mut String,
    fault: ServiceFault,
    call: &Call<Place>,
) -> Result<(), AllocError> {
    let class = fault.class();
    let number = fault.number();
    let layer = fault.layer();
    let reason = sentence(fault, call);
    writeln!(out, "{INDENT}{class} {number} ({layer}): {reason}")
}

// What a client was told, in answer to which message.
pub fn tell_answer(
    out: &mut String,
    m: &Message<Place>,
    answer: Answer<Place>,
) -> Result<(), AllocError> {
    let Message { client, star, .. } = *m;
    match answer {
        Answer::Reading(value) => writeln!(
            out,
            "{INDENT}answered: client {client} reads star {star}: {}",
            ValueText(value)
        ),
        Answer::Correction { outcome, index } => writeln!(
            out,
            "{INDENT}answered: client {client}'s correction of star {star} is {}",
            OutcomeText(outcome, index)
        ),
    }
}

// The row of the star's zone, while the relay is open.
fn tell_row(out: &mut String, relay: &Relay, star: u16) -> Result<(), AllocError> {
    let Some(opened) = &relay.opened else {
        return Ok(());
    };
    let zone = entries::zone_of(star);
    let row = RowText(opened.rows[zone as usize]);
    writeln!(out, "{INDENT}zone {zone}: {row}")
}

fn tell_unsettled(out: &mut String, rows: &[Row]) -> Result<(), AllocError> {
    if rows.iter().all(|row| row.settled.is_some()) {
        return writeln!(out, " none");
    }
    for (zone, row) in rows.iter().enumerate() {
        if row.settled.is_none() {
            write!(out, " {zone}")?;
        }
    }
    writeln!(out)
}

fn tell_opened(
    out: &mut String,
    session: u32,
    snapshot: Option<&Snapshot>,
) -> Result<(), AllocError> {
    write!(
        out,
        "{INDENT}done: session {} is opened, unsettled zones:",
        SessionText(session)
    )?;
    match snapshot {
        Some(s) => tell_unsettled(out, &s.rows),
        None => writeln!(out, " none"),
    }
}

impl<R: VoteRule> Story<'_, R> {
    // The message that the step put at the end of the table.
    fn tell_sent(&mut self) -> Result<(), AllocError> {
        let last = u32::from(self.service.table.count).saturating_sub(1);
        match self.message(last) {
            Some(m) => writeln!(self.out, "{INDENT}done: sent {}", MessageText(m)),
            None => writeln!(self.out, "{INDENT}done"),
        }
    }

    fn tell_appended(&mut self) -> Result<(), AllocError> {
        let logs = &self.service.logs;
        let led = logs
            .leader
            .and_then(|leader| Some((leader, logs.counts.get(leader as usize)?)));
        match led {
            Some((leader, counts)) => writeln!(
                self.out,
                "{INDENT}done: copy {leader} appends entry {} to its log",
                counts.length
            ),
            None => writeln!(self.out, "{INDENT}done"),
        }
    }

    // What else a delivered message changed: the zone's row, or the copy's known count.
    fn tell_change(&mut self, m: &Message<Place>) -> Result<(), AllocError> {
        match m.body {
            Body::CorrectionRequest | Body::CorrectionReply { .. } => {
                tell_row(self.out, &self.service.relay, m.star)
            }
            Body::CopyRead { copy, .. } => match self.service.logs.counts.get(copy as usize) {
                Some(counts) => {
                    writeln!(
                        self.out,
                        "{INDENT}copy {copy}: known count {}",
                        counts.known
                    )
                }
                None => Ok(()),
            },
            _ => Ok(()),
        }
    }

    // A delivered message took its place from the table; a new one may have come.
    pub fn tell_delivered(&mut self, before: u16, m: &Message<Place>) -> Result<(), AllocError> {
        if self.service.table.count == before {
            self.tell_sent()?;
        } else {
            self.tell_appended()?;
        }
        self.tell_change(m)
    }

    // A step that is done, by what it was and the number that it handed back.
    pub fn tell_done(&mut self, call: &Call<Place>, n: u32) -> Result<(), AllocError> {
        let out = &mut *self.out;
        match call {
            Call::Elect { copy, .. } => writeln!(out, "{INDENT}done: copy {copy} leads term {n}"),
            Call::Open => tell_opened(out, n, self.service.snapshot.as_ref()),
            Call::Install => writeln!(
                out,
                "{INDENT}done: the relay is open in session {}; an installed message is sent",
                SessionText(n)
            ),
            Call::Restart => writeln!(out, "{INDENT}done: the relay is closed"),
            Call::Abandon { client } => writeln!(out, "{INDENT}done: client {client} is idle"),
            Call::Lose { .. } => writeln!(out, "{INDENT}done: the message is lost"),
            Call::Double { .. } => writeln!(out, "{INDENT}done: {n} messages under way"),
            Call::Copy { copy } => writeln!(
                out,
                "{INDENT}done: copy {copy} has {}",
                EntriesText(n)
            ),
            Call::Commit { .. } => writeln!(out, "{INDENT}done: the leader's known count is {n}"),
            _ => self.tell_sent(),
        }
    }
}
