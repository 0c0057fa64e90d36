ghost use Rattle.std.specs.Prelude.{◌≡◌, ℕ, ◌<◌, ◌≤◌, length, IfSome, IfOk, Some, OnOk, slice_index_or};
ghost use Rattle.copies.specs.Shape.{known_of, Shaped};
ghost use Rattle.raft_log.specs.Calls.{leader_in, put_step, append_step, next_of, copy_step, blank_entry, entry_known, rise_step};

use crate::fault::LogFault;
use copies::{Logs, Replicas};
use entries::Entry;
use kinds::RecordKind;

// Struct and slice stand apart and must fit, as at the calls in calls.rt.

// The leader, which is one of the copies.
pub fn leader_of(logs: &Logs) -> Result<u8, LogFault>
    requires { (a : ℕ) → logs.now.leader ≡ Some a → a < logs.now.copies }
    ensures value { result ≡ leader_in logs.now.leader }
    ensures bound { IfOk result (λ a. a < logs.now.copies) }
{
    logs.leader.ok_or(LogFault::NoLeader)
}

// Puts the entry into copy r's log at a place, counted from 0, where the log then ends; the answer
// is its length.
fn put_entry<V: RecordKind>(
    logs: &mut Logs,
    entries: &mut [Entry<V>],
    r: u8,
    at: usize,
    e: Entry<V>,
) -> u16
    requires shape { Shaped logs.old (length entries.old) }
    requires copy { r < logs.old.copies }
    requires within { at < logs.old.capacity }
    ensures { (logs.new, entries.new, result) ≡ put_step logs.old entries.old r at e }
{
    let place = logs.place(entries.len(), r, at);
    entries[place] = e;
    logs.counts[r as usize].length = at as u16 + 1;
    at as u16 + 1
}

// One entry more at the end of copy a's log; the answer is its index.
pub fn append_step<V: RecordKind>(
    logs: &mut Logs,
    entries: &mut [Entry<V>],
    a: u8,
    e: Entry<V>,
) -> Result<u16, LogFault>
    requires shape { Shaped logs.old (length entries.old) }
    requires copy { a < logs.old.copies }
    ensures { (logs.new, entries.new, result) ≡ append_step logs.old entries.old a e }
{
    let n = logs.counts[a as usize].length;
    if n >= logs.capacity {
        return Err(LogFault::LogFull);
    }
    Ok(put_entry(logs, entries, a, n as usize, e))
}

// The leader's entry at the place where the other log parts from it, if they part.
fn next_entry<V: RecordKind>(led: &[Entry<V>], log: &[Entry<V>]) -> Option<(usize, Entry<V>)>
    ensures value { result ≡ next_of V.RecordKind.blank_value led.now log.now }
    ensures bound { IfSome result (λ p. p.0 < length led.now) }
{
    let at = entries::first_gap(led, log);
    let e = led.get(at)?;
    Some((at, *e))
}

// The leader's entry goes to copy r where r's log ends or has another term, and r's log then ends
// there; the answer is its length.
pub fn copy_step<V: RecordKind>(
    logs: &mut Logs,
    entries: &mut [Entry<V>],
    r: u8,
) -> Result<u16, LogFault>
    requires shape { Shaped logs.old (length entries.old) }
    requires copy { r < logs.old.copies }
    ensures { (logs.new, entries.new, result) ≡ copy_step V.RecordKind.blank_value logs.old entries.old r }
{
    let leader = leader_of(logs)?;
    let copies = logs.over(entries);
    let found = next_entry(copies.log(leader), copies.log(r));
    // Through `ok_or(..)?` the bound of the place was not proved.
    let Some((at, e)) = found else {
        return Err(LogFault::NothingToCopy);
    };
    Ok(put_entry(logs, entries, r, at, e))
}

// The entry at a place of a log, counted from 0.
fn entry_at<V: RecordKind>(log: &[Entry<V>], at: usize) -> Entry<V>
    requires { at < length log.now }
    ensures { result ≡ slice_index_or log.now at (blank_entry V.RecordKind.blank_value) }
{
    log[at]
}

// Copy a's entry i, counted from 1, within its known count.
pub fn entry_known<V: RecordKind>(copies: &Replicas<V>, a: u8, i: u32) -> Result<Entry<V>, LogFault>
    requires { a < copies.now.logs.now.copies }
    ensures value { result ≡ entry_known V.RecordKind.blank_value copies.now.logs.now copies.now.entries.now a i }
    ensures bound { OnOk result (i ≤ known_of copies.now.logs.now a) }
{
    if i == 0 || i > u32::from(copies.logs.counts[a as usize].known) {
        return Err(LogFault::CountOutOfRange);
    }
    Ok(entry_at(copies.log(a), i as usize - 1))
}

// Copy r's known count rises to n, if lower, where its first n entries are the committed log's.
pub fn rise_step<V: RecordKind>(
    logs: &mut Logs,
    entries: &[Entry<V>],
    r: u8,
    n: u16,
) -> Result<(), LogFault>
    requires shape { Shaped logs.old (length entries.now) }
    requires copy { r < logs.old.copies }
    ensures { (logs.new, result) ≡ rise_step V.PartialEq.eq logs.old entries.now r n }
{
    if !logs.over(entries).holds_committed(r, n) {
        return Err(LogFault::NotCommitted);
    }
    let known = logs.counts[r as usize].known;
    logs.counts[r as usize].known = known.max(n);
    Ok(())
}
