ghost use Rattle.std.specs.Prelude.{◌≡◌, ◌<◌, ◌≤◌, length, OnOk};
ghost use Rattle.requests.specs.Clients.{begin_of, begin_correction, read_step, correct_step};

use client::{Client, Waiting};
use kinds::RecordKind;
use relay::Message;
use state::{Service, ServiceFault};
use votes::VoteRule;

// Messages and kept values stand apart from the service, in memory that is lent to each step.

// The number of the client's next request, if there is such a client and star and it may make one.
// Both callers cut the star to 16 bits: handed back here it would make a pair of every answer.
fn begin<R: VoteRule>(s: &Service<R>, client: u8, star: u32) -> Result<u16, ServiceFault>
    ensures value { result ≡ begin_of s.now client star }
    ensures bound { OnOk result ((client < 8) × (client < s.now.seats) × (star ≤ 65535)) }
{
    let seat = s.seat(client).ok_or(ServiceFault::NoSuch)?;
    if star == 0 || star > 65535 {
        return Err(ServiceFault::NoSuch);
    }
    Ok(s.clients[seat].next_number()?)
}

// The client asks for the star's value; the answer is the request's number.
pub fn read<V: RecordKind, R: VoteRule>(
    s: &mut Service<R>,
    messages: &mut [Message<V>],
    client: u8,
    star: u32,
) -> Result<u16, ServiceFault>
    ensures { (s.new, messages.new, result) ≡ read_step s.old messages.old client star }
{
    s.check_messages(messages)?;
    let number = begin(s, client, star)?;
    let star = star as u16;
    s.table
        .post(messages, client::read_request(client, number, star))?;
    s.clients[client as usize] = Client {
        number,
        waiting: Waiting::Reading { star },
    };
    Ok(number)
}

// The number of the client's correction, if it is well formed and the client may make one.
fn begin_correction<V: RecordKind, R: VoteRule>(
    s: &Service<R>,
    kept: &[V],
    client: u8,
    star: u32,
    value: V,
) -> Result<u16, ServiceFault>
    ensures value { result ≡ begin_correction V.RecordKind.well_formed s.now kept.now client star value }
    ensures bound { OnOk result ((client < 8) × (client < length kept.now) × (star ≤ 65535)) }
{
    s.check_kept(kept)?;
    if !value.is_well_formed() {
        return Err(ServiceFault::Malformed);
    }
    begin(s, client, star)
}

// The client corrects the star's value, which is kept; the answer is the request's number.
pub fn correct<V: RecordKind, R: VoteRule>(
    s: &mut Service<R>,
    messages: &mut [Message<V>],
    kept: &mut [V],
    client: u8,
    star: u32,
    value: V,
) -> Result<u16, ServiceFault>
    ensures { (s.new, messages.new, kept.new, result) ≡ correct_step V.RecordKind.well_formed s.old messages.old kept.old client star value }
{
    s.check_messages(messages)?;
    let number = begin_correction(s, kept, client, star, value)?;
    let star = star as u16;
    s.table.post(
        messages,
        client::correction_request(client, number, star, value),
    )?;
    s.clients[client as usize] = Client {
        number,
        waiting: Waiting::Correction { star },
    };
    kept[client as usize] = value;
    Ok(number)
}
