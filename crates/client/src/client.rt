ghost use Rattle.std.specs.Prelude.{◌≡◌};
ghost use Rattle.client.specs.Client.{next_number, read_request, correction_request, repeated, abandon_step, take_step};

use crate::fault::ClientFault;
use kinds::RecordKind;
use relay::{Body, Message, Outcome};

// What a client waits for.
#[derive(Clone, Copy, Default, PartialEq, Eq)]
pub enum Waiting {
    #[default]
    Nothing,
    Reading { star: u16 },
    Correction { star: u16 },
}

// The number is that of the client's last request, 0 before the first.
#[derive(Clone, Copy, Default)]
pub struct Client {
    pub number: u16,
    pub waiting: Waiting,
}

// What a client is told: the value of a reading, if the star has one, or what came of a correction.
#[derive(Clone, Copy)]
pub enum Answer<V> {
    Reading(Option<V>),
    Correction { outcome: Outcome, index: u16 },
}

impl Client {
    // The number of the next request, if the client may make one.
    pub fn next_number(&self) -> Result<u16, ClientFault>
        ensures { result ≡ next_number self.now }
    {
        if self.waiting != Waiting::Nothing {
            return Err(ClientFault::Busy);
        }
        self.number.checked_add(1).ok_or(ClientFault::NumbersUsedUp)
    }

    // The open request once more.
    pub fn repeat<V: RecordKind>(&self, client: u8, kept: V) -> Result<Message<V>, ClientFault>
        ensures { result ≡ repeated self.now client kept }
    {
        let number = self.number;
        match self.waiting {
            Waiting::Nothing => Err(ClientFault::Idle),
            Waiting::Reading { star } => Ok(read_request(client, number, star)),
            Waiting::Correction { star } => Ok(correction_request(client, number, star, kept)),
        }
    }

    // Gives the open request up.
    pub fn abandon(&mut self) -> Result<(), ClientFault>
        ensures { (self.new, result) ≡ abandon_step self.old }
    {
        if self.waiting == Waiting::Nothing {
            return Err(ClientFault::Idle);
        }
        self.waiting = Waiting::Nothing;
        Ok(())
    }

    // Takes an answer only while the client waits for that kind and number, and is idle then.
    pub fn take<V: RecordKind>(
        &mut self,
        number: u16,
        answer: Answer<V>,
    ) -> Result<Answer<V>, ClientFault>
        ensures { (self.new, result) ≡ take_step self.old number answer }
    {
        match (self.waiting, answer) {
            (Waiting::Reading { .. }, Answer::Reading(_))
            | (Waiting::Correction { .. }, Answer::Correction { .. })
                if number == self.number => {
                self.waiting = Waiting::Nothing;
                Ok(answer)
            }
            _ => Err(ClientFault::NotAwaited),
        }
    }
}

pub fn read_request<V: RecordKind>(client: u8, number: u16, star: u16) -> Message<V>
    ensures { result ≡ read_request client number star }
{
    Message {
        client,
        number,
        star,
        session: 0,
        body: Body::ReadRequest,
        value: None,
    }
}

pub fn correction_request<V: RecordKind>(client: u8, number: u16, star: u16, value: V) -> Message<V>
    ensures { result ≡ correction_request client number star value }
{
    Message {
        body: Body::CorrectionRequest,
        value: Some(value),
        ..read_request(client, number, star)
    }
}
