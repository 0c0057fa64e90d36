use kinds::Place;
use phrases::{PlaceText, SetText};
use service::Call;
use std::fmt;

// A step as it was asked for.
#[derive(Drop)]
pub struct CallText(pub Call<Place>);

impl fmt::Display for CallText {
    fn fmt<W: fmt::Write>(&self, f: &mut fmt::Formatter<W>) -> fmt::Result {
        match self.0 {
            Call::Elect { copy, voters } => write!(f, "elect copy {copy} by {}", SetText(voters)),
            Call::Open => f.write_str("open"),
            Call::Install => f.write_str("install"),
            Call::Restart => f.write_str("restart"),
            Call::Read { client, star } => write!(f, "read by client {client} of star {star}"),
            Call::Correct {
                client,
                star,
                value,
            } => {
                write!(
                    f,
                    "correct by client {client} of star {star}: {}",
                    PlaceText(value)
                )
            }
            Call::Again { client } => write!(f, "again by client {client}"),
            Call::Abandon { client } => write!(f, "abandon by client {client}"),
            Call::Deliver { place } => write!(f, "deliver place {place}"),
            Call::Lose { place } => write!(f, "lose place {place}"),
            Call::Double { place } => write!(f, "double place {place}"),
            Call::Copy { copy } => write!(f, "copy to copy {copy}"),
            Call::Commit { count } => write!(f, "commit {count}"),
            Call::Reply { index } => write!(f, "reply for index {index}"),
        }
    }
}
