ghost use Rattle.std.specs.Prelude.{◌≡◌, ◌<◌, length};
ghost use Rattle.copies.specs.Shape.{Shaped};
ghost use Rattle.leader.specs.Reads.{found, copy_read, leader_read};

use crate::fault::LeaderFault;
use crate::lead::Lead;
use crate::sessions::present_leader;
use copies::{Logs, Replicas};
use entries::Entry;
use kinds::RecordKind;
use relay::{Body, Message};

// Where the logs change, struct and slice stand apart and must fit, as at the calls of raft_log.

// The reply to a reading, with what was found.
fn read_reply<V: RecordKind>(m: &Message<V>, body: Body, value: Option<V>) -> Message<V>
    ensures { result ≡ found m.now body value }
{
    Message { body, value, ..*m }
}

// A copy answers a reading from the entries that it knows to be committed, its known count having
// risen to the index.
pub fn copy_read<V: RecordKind>(
    logs: &mut Logs,
    entries: &[Entry<V>],
    m: &Message<V>,
    copy: u8,
    index: u16,
) -> Result<Message<V>, LeaderFault>
    requires shape { Shaped logs.old (length entries.now) }
    requires copy { copy < logs.old.copies }
    ensures { (logs.new, result) ≡ copy_read V.PartialEq.eq logs.old entries.now m.now copy index }
{
    raft_log::rise(logs, entries, copy, index)?;
    let known = logs.over(entries).known_log(copy);
    let stamp = entries::zone_stamp(known, entries::zone_of(m.star));
    let value = entries::last_value(known, m.star);
    Ok(read_reply(m, Body::CopyReply { copy, stamp }, value))
}

// The leader answers a reading, once it is ready.
pub fn leader_read<V: RecordKind>(
    copies: &Replicas<V>,
    lead: &Lead,
    m: &Message<V>,
) -> Result<Message<V>, LeaderFault>
    ensures { result ≡ leader_read copies.now.logs.now lead.now copies.now.entries.now m.now }
{
    let leader = present_leader(copies.logs, lead, m.session)?;
    if !copies.ready(leader) {
        return Err(LeaderFault::NotReady);
    }
    let value = entries::last_value(copies.known_log(leader), m.star);
    Ok(read_reply(m, Body::LeaderReply, value))
}
