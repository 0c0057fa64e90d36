ghost use Rattle.std.specs.Prelude.{◌≡◌, ◌^◌, ◌<◌, bit_or};

use crate::numbers::decimal;
use crate::words::Words;
use kinds::Place;
use service::Call;

// The first word of a line.
#[derive(Clone, Copy)]
pub enum Name {
    Elect,
    Open,
    Install,
    Restart,
    Read,
    Correct,
    Again,
    Abandon,
    Deliver,
    Lose,
    Double,
    Copy,
    Commit,
    Reply,
    Service,
}

impl Name {
    pub fn read(word: &[u8]) -> Option<Name> {
        match word {
            b"elect" => Some(Name::Elect),
            b"open" => Some(Name::Open),
            b"install" => Some(Name::Install),
            b"restart" => Some(Name::Restart),
            b"read" => Some(Name::Read),
            b"correct" => Some(Name::Correct),
            b"again" => Some(Name::Again),
            b"abandon" => Some(Name::Abandon),
            b"deliver" => Some(Name::Deliver),
            b"lose" => Some(Name::Lose),
            b"double" => Some(Name::Double),
            b"copy" => Some(Name::Copy),
            b"commit" => Some(Name::Commit),
            b"reply" => Some(Name::Reply),
            b"service" => Some(Name::Service),
            _ => None,
        }
    }

    // What a line with this first word looks like.
    pub fn form(self) -> &'static str {
        match self {
            Name::Elect => "elect COPY by COPY ..",
            Name::Open => "open",
            Name::Install => "install",
            Name::Restart => "restart",
            Name::Read => "read CLIENT star NUMBER",
            Name::Correct =>
                "correct CLIENT star NUMBER ra NUMBER dec NUMBER pm NUMBER NUMBER year NUMBER",
            Name::Again => "again CLIENT",
            Name::Abandon => "abandon CLIENT",
            Name::Deliver => "deliver PLACE",
            Name::Lose => "lose PLACE",
            Name::Double => "double PLACE",
            Name::Copy => "copy COPY",
            Name::Commit => "commit COUNT",
            Name::Reply => "reply INDEX",
            Name::Service =>
                "service copies NUMBER rule majority|every log NUMBER messages NUMBER clients NUMBER",
        }
    }
}

// The set with one copy more.
fn with_copy(set: u8, copy: u32) -> u8
    requires { copy < 8 }
    ensures { result ≡ bit_or set (2 ^ copy) }
{
    set | (1 << copy)
}

// The set of the copies, 0 to 7, that the rest of the line names.
fn voters(words: &mut Words) -> Option<u8> {
    let mut set = 0;
    for word in words {
        set = with_copy(set, decimal(word, 7)?);
    }
    Some(set)
}

fn elect(words: &mut Words) -> Option<Call<Place>> {
    let copy = words.unsigned()?;
    words.pass(b"by")?;
    let voters = voters(words)?;
    Some(Call::Elect { copy, voters })
}

fn read(words: &mut Words) -> Option<Call<Place>> {
    let client = words.unsigned()?;
    words.pass(b"star")?;
    let star = words.unsigned()?;
    Some(Call::Read { client, star })
}

fn place(words: &mut Words) -> Option<Place> {
    words.pass(b"ra")?;
    let ascension = words.unsigned()?;
    words.pass(b"dec")?;
    let declination = words.signed()?;
    words.pass(b"pm")?;
    let motion_ra = words.signed()?;
    let motion_dec = words.signed()?;
    words.pass(b"year")?;
    let year = words.unsigned()?;
    Some(Place {
        ascension,
        declination,
        motion_ra,
        motion_dec,
        year,
    })
}

fn correct(words: &mut Words) -> Option<Call<Place>> {
    let client = words.unsigned()?;
    words.pass(b"star")?;
    let star = words.unsigned()?;
    let value = place(words)?;
    Some(Call::Correct {
        client,
        star,
        value,
    })
}

// The step of this name, with its arguments: an arm for each, since each makes its own variant.
fn arguments(name: Name, words: &mut Words) -> Option<Call<Place>> {
    match name {
        Name::Elect => elect(words),
        Name::Open => Some(Call::Open),
        Name::Install => Some(Call::Install),
        Name::Restart => Some(Call::Restart),
        Name::Read => read(words),
        Name::Correct => correct(words),
        Name::Again => Some(Call::Again {
            client: words.unsigned()?,
        }),
        Name::Abandon => Some(Call::Abandon {
            client: words.unsigned()?,
        }),
        Name::Deliver => Some(Call::Deliver {
            place: words.unsigned()?,
        }),
        Name::Lose => Some(Call::Lose {
            place: words.unsigned()?,
        }),
        Name::Double => Some(Call::Double {
            place: words.unsigned()?,
        }),
        Name::Copy => Some(Call::Copy {
            copy: words.unsigned()?,
        }),
        Name::Commit => Some(Call::Commit {
            count: words.unsigned()?,
        }),
        Name::Reply => Some(Call::Reply {
            index: words.unsigned()?,
        }),
        Name::Service => None,
    }
}

// The step of this name, if its arguments are there and nothing follows them.
pub fn read_step(name: Name, words: &mut Words) -> Option<Call<Place>> {
    let call = arguments(name, words)?;
    words.ended().then_some(call)
}
