ghost use Rattle.std.specs.Prelude.{◌≡◌};
ghost use Rattle.requests.specs.Clients.{open_request, again_step, abandon_step};

use kinds::RecordKind;
use relay::Message;
use state::{Service, ServiceFault};
use votes::VoteRule;

// Messages and kept values stand apart from the service, in memory that is lent to each step.

// The client's open request.
fn open_request<V: RecordKind, R: VoteRule>(
    s: &Service<R>,
    kept: &[V],
    client: u8,
) -> Result<Message<V>, ServiceFault>
    ensures { result ≡ open_request V.RecordKind.blank_value s.now kept.now client }
{
    s.check_kept(kept)?;
    let seat = s.seat(client).ok_or(ServiceFault::NoSuch)?;
    Ok(s.clients[seat].repeat(client, kept[seat])?)
}

// The client's open request is sent once more; the answer is its number.
pub fn again<V: RecordKind, R: VoteRule>(
    s: &mut Service<R>,
    messages: &mut [Message<V>],
    kept: &[V],
    client: u8,
) -> Result<u16, ServiceFault>
    ensures { (s.new, messages.new, result) ≡ again_step V.RecordKind.blank_value s.old messages.old kept.now client }
{
    s.check_messages(messages)?;
    let m = open_request(s, kept, client)?;
    s.table.post(messages, m)?;
    Ok(m.number)
}

// The client gives its open request up.
pub fn abandon<R: VoteRule>(s: &mut Service<R>, client: u8) -> Result<(), ServiceFault>
    ensures { (s.new, result) ≡ abandon_step s.old client }
{
    let seat = s.seat(client).ok_or(ServiceFault::NoSuch)?;
    Ok(s.clients[seat].abandon()?)
}
