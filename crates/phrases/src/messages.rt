use crate::texts::{SessionText, SettlementText, StampText, ValueText};
use kinds::Place;
use relay::{Body, Message, Outcome};
use std::fmt;

// Whose request a message serves.
#[derive(Drop)]
struct RequestText(Message<Place>);

impl fmt::Display for RequestText {
    fn fmt<W: fmt::Write>(&self, f: &mut fmt::Formatter<W>) -> fmt::Result {
        let Message {
            client,
            number,
            star,
            ..
        } = self.0;
        write!(f, "client {client}, number {number}, star {star}")
    }
}

// What came of a correction.
#[derive(Drop)]
pub struct OutcomeText(pub Outcome, pub u16);

impl fmt::Display for OutcomeText {
    fn fmt<W: fmt::Write>(&self, f: &mut fmt::Formatter<W>) -> fmt::Result {
        let OutcomeText(outcome, index) = *self;
        match outcome {
            Outcome::Fresh => write!(f, "accepted fresh at index {index}"),
            Outcome::KnownAlready => write!(f, "accepted, known already at index {index}"),
            Outcome::Unlawful => f.write_str("refused as unlawful"),
        }
    }
}

// The word alone: a text with Display would be this match with a type around it.
fn outcome_word(outcome: Outcome) -> &'static str {
    match outcome {
        Outcome::Fresh => "fresh",
        Outcome::KnownAlready => "known-already",
        Outcome::Unlawful => "unlawful",
    }
}

// A message by its kind and its request.
#[derive(Drop)]
pub struct BriefText(pub Message<Place>);

impl fmt::Display for BriefText {
    fn fmt<W: fmt::Write>(&self, f: &mut fmt::Formatter<W>) -> fmt::Result {
        let request = RequestText(self.0);
        match self.0.body {
            Body::ReadRequest => write!(f, "read request of {request}"),
            Body::CorrectionRequest => write!(f, "correction request of {request}"),
            Body::CopyRead { copy, .. } => write!(f, "copy read to copy {copy}: {request}"),
            Body::LeaderRead => write!(f, "leader read: {request}"),
            Body::Correction { sequence } => {
                write!(f, "correction with sequence number {sequence}: {request}")
            }
            Body::Installed => write!(
                f,
                "installed message: session {}",
                SessionText(self.0.session)
            ),
            Body::LeaderReply => write!(f, "read reply of the leader: {request}"),
            Body::CopyReply { copy, .. } => write!(f, "read reply of copy {copy}: {request}"),
            Body::CorrectionReply { outcome, .. } => {
                write!(f, "{} correction reply: {request}", outcome_word(outcome))
            }
            Body::ReadAnswer | Body::CorrectionAnswer { .. } => write!(f, "answer to {request}"),
        }
    }
}

// What a message carries besides.
#[derive(Drop)]
struct DetailText(Message<Place>);

impl fmt::Display for DetailText {
    fn fmt<W: fmt::Write>(&self, f: &mut fmt::Formatter<W>) -> fmt::Result {
        let session = SessionText(self.0.session);
        let value = ValueText(self.0.value);
        match self.0.body {
            Body::ReadRequest | Body::Installed => Ok(()),
            Body::CorrectionRequest | Body::ReadAnswer => write!(f, ": {value}"),
            Body::CopyRead { index, .. } => write!(f, ", index {index}, session {session}"),
            Body::LeaderRead => write!(f, ", session {session}"),
            Body::Correction { .. } | Body::LeaderReply => {
                write!(f, ", session {session}: {value}")
            }
            Body::CopyReply { stamp, .. } => {
                let stamp = StampText(stamp);
                write!(f, ", session {session}, {stamp}: {value}")
            }
            Body::CorrectionReply {
                outcome,
                settlement,
                ..
            } => match outcome {
                Outcome::Fresh => {
                    write!(f, ", session {session}, {}", SettlementText(settlement))
                }
                Outcome::KnownAlready => {
                    write!(f, ", session {session}, index {}", settlement.index)
                }
                Outcome::Unlawful => write!(f, ", session {session}"),
            },
            Body::CorrectionAnswer { outcome, index } => {
                write!(f, ": {}", OutcomeText(outcome, index))
            }
        }
    }
}

// A message with all that it carries.
#[derive(Drop)]
pub struct MessageText(pub Message<Place>);

impl fmt::Display for MessageText {
    fn fmt<W: fmt::Write>(&self, f: &mut fmt::Formatter<W>) -> fmt::Result {
        write!(f, "{}{}", BriefText(self.0), DetailText(self.0))
    }
}
