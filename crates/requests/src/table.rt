ghost use Rattle.std.specs.Prelude.{◌≡◌};
ghost use Rattle.requests.specs.Table.{install_step, restart_step, lose_step, double_step};

use kinds::RecordKind;
use relay::{Body, Message};
use state::{Service, ServiceFault};
use votes::VoteRule;

// Messages stand apart from the service, in memory that is lent to each step.

// Opens the relay with the snapshot and tells the leader; the answer is the session.
pub fn install<V: RecordKind, R: VoteRule>(
    s: &mut Service<R>,
    messages: &mut [Message<V>],
) -> Result<u32, ServiceFault>
    ensures { (s.new, messages.new, result) ≡ install_step s.old messages.old }
{
    s.check_messages(messages)?;
    let snapshot = s.relay.installable(s.snapshot)?;
    let m = Message {
        session: snapshot.session,
        body: Body::Installed,
        ..state::blank_message()
    };
    s.table.post(messages, m)?;
    s.relay.install(snapshot);
    Ok(snapshot.session)
}

// Closes the relay, as if it had lost its memory.
pub fn restart<R: VoteRule>(s: &mut Service<R>)
    ensures { s.new ≡ restart_step s.old }
{
    s.relay.restart();
}

// The message at the place is lost.
pub fn lose<V: RecordKind, R: VoteRule>(
    s: &mut Service<R>,
    messages: &mut [Message<V>],
    place: u32,
) -> Result<(), ServiceFault>
    ensures { (s.new, messages.new, result) ≡ lose_step s.old messages.old place }
{
    s.check_messages(messages)?;
    let place = s.check_place(place)?;
    let _ = s.table.take(messages, place);
    Ok(())
}

// The message at the place comes once more at the end; the answer is how many are under way.
pub fn double<V: RecordKind, R: VoteRule>(
    s: &mut Service<R>,
    messages: &mut [Message<V>],
    place: u32,
) -> Result<u16, ServiceFault>
    ensures { (s.new, messages.new, result) ≡ double_step s.old messages.old place }
{
    s.check_messages(messages)?;
    let place = s.check_place(place)?;
    let m = messages[place as usize];
    s.table.post(messages, m)?;
    Ok(s.table.count)
}
