use crate::story::Story;
use copies::{Counts, Logs};
use entries::Entry;
use kinds::Place;
use leader::Lead;
use phrases::{ClientText, EntriesText, EntryText, MessageText, RowText, SessionText};
use relay::{Relay, Row, Snapshot};
use std::alloc::AllocError;
use std::fmt::Write;
use votes::VoteRule;

fn tell_log(out: &mut String, log: &[Entry<Place>]) -> Result<(), AllocError> {
    for (index, e) in (1u32..).zip(log) {
        writeln!(out, "    {index}  {}", EntryText(*e))?;
    }
    Ok(())
}

fn tell_logs(out: &mut String, logs: &Logs, entries: &[Entry<Place>]) -> Result<(), AllocError> {
    // Logs that don't fit these entries are not told; a service's own always do.
    if !logs.fits(entries.len()) {
        return Ok(());
    }
    let copies = logs.over(entries);
    // By index: over a `zip` the proof that the copy is below `copies` did not close.
    for copy in 0..logs.copies {
        let Counts { length, known } = logs.counts[copy as usize];
        let length = EntriesText(u32::from(length));
        writeln!(out, "  copy {copy}: {length}, known count {known}")?;
        tell_log(out, copies.log(copy))?;
    }
    Ok(())
}

// Whether the row is as the snapshot had it for a zone without an entry.
fn is_plain(row: &Row) -> bool {
    row.latest == 0 && row.settled.is_some_and(|s| s.stamp.session == 0)
}

fn tell_rows(out: &mut String, rows: &[Row]) -> Result<(), AllocError> {
    let mut plain = None;
    let mut zones = "all zones";
    for (zone, row) in rows.iter().enumerate() {
        if is_plain(row) {
            plain = Some(*row);
        } else {
            zones = "other zones";
            writeln!(out, "  zone {zone}: {}", RowText(*row))?;
        }
    }
    match plain {
        Some(row) => writeln!(out, "  {zones}: {}", RowText(row)),
        None => Ok(()),
    }
}

fn tell_relay(out: &mut String, relay: &Relay) -> Result<(), AllocError> {
    if relay.session == 0 {
        return writeln!(out, "Relay: closed, no session installed yet");
    }
    let session = SessionText(relay.session);
    let Some(opened) = &relay.opened else {
        return writeln!(out, "Relay: closed, highest installed session {session}");
    };
    let sequence = opened.sequence;
    let turn = opened.turn;
    writeln!(
        out,
        "Relay: open in session {session}, sequence number {sequence}, turn {turn}"
    )?;
    tell_rows(out, &opened.rows)
}

fn tell_snapshot(out: &mut String, snapshot: Option<&Snapshot>) -> Result<(), AllocError> {
    match snapshot {
        Some(s) => writeln!(
            out,
            "Snapshot: session {}, leader copy {}",
            SessionText(s.session),
            s.leader
        ),
        None => writeln!(out, "Snapshot: none"),
    }
}

impl<R: VoteRule> Story<'_, R> {
    fn tell_leader(&mut self) -> Result<(), AllocError> {
        let term = self.service.logs.term;
        let Lead { part, last } = self.service.lead;
        match self.service.logs.leader {
            Some(leader) => writeln!(
                self.out,
                "Logs (term {term}, leader copy {leader}, part {part}, last number {last})"
            ),
            None => writeln!(self.out, "Logs (no leader)"),
        }
    }

    fn tell_messages(&mut self) -> Result<(), AllocError> {
        let count = self.service.table.count;
        writeln!(self.out, "Messages under way: {count}")?;
        for (place, m) in self.memory.messages.iter().take(count as usize).enumerate() {
            writeln!(self.out, "  {place}  {}", MessageText(*m))?;
        }
        Ok(())
    }

    fn tell_clients(&mut self) -> Result<(), AllocError> {
        writeln!(self.out, "Clients")?;
        let seats = self.service.seats as usize;
        for (client, c) in self.service.clients.iter().take(seats).enumerate() {
            writeln!(self.out, "  client {client}: {}", ClientText(*c))?;
        }
        Ok(())
    }

    // What there is at the end: the logs, the snapshot, the relay, the messages under way, the clients.
    pub fn tell_tables(&mut self) -> Result<(), AllocError> {
        writeln!(self.out)?;
        self.tell_leader()?;
        tell_logs(self.out, &self.service.logs, &self.memory.entries)?;
        tell_snapshot(self.out, self.service.snapshot.as_ref())?;
        tell_relay(self.out, &self.service.relay)?;
        self.tell_messages()?;
        self.tell_clients()
    }
}
