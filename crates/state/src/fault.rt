ghost use Rattle.std.specs.Prelude.{◌≡◌, Some};
ghost use Rattle.state.specs.Numbers.{log_number, leader_number, relay_number, client_number, number_of, found_in, layer_number, layer_name, class_name, class_of};
ghost use Rattle.state.specs.declared.fault.ServiceFault.TheVariants.{Leader, Relay, Client};

use client::ClientFault;
use leader::LeaderFault;
use raft_log::LogFault;
use relay::RelayFault;
use std::fmt;

// Why the service refuses a step, or drops a message.
#[derive(Clone, Copy)]
pub enum ServiceFault {
    // A size is beyond its bounds, or lent memory is too small.
    Memory,
    // There is no such copy, client, star or place.
    NoSuch,
    TableFull,
    Malformed,
    Leader(LeaderFault),
    Relay(RelayFault),
    Client(ClientFault),
}

// What a fault comes to: the step is refused, or the message dropped.
#[derive(Clone, Copy, Debug, PartialEq, Eq)]
pub enum Class {
    Refused = 1,
    Dropped = 2,
}

impl fmt::Display for Class {
    ghost output = { λ class. Some (class_name class) };

    fn fmt<W: fmt::Write>(&self, f: &mut fmt::Formatter<W>) -> fmt::Result {
        f.write_str(match self {
            Class::Refused => "refused",
            Class::Dropped => "dropped",
        })
    }
}

// Where a fault is found.
#[derive(Clone, Copy, Debug, PartialEq, Eq)]
pub enum Layer {
    Service = 1,
    Log = 2,
    Leader = 3,
    Relay = 4,
    Client = 5,
}

impl Layer {
    // The number by which the layer is known everywhere.
    pub fn number(self) -> u8
        ensures { result ≡ layer_number self }
    {
        self as u8
    }
}

impl fmt::Display for Layer {
    ghost output = { λ layer. Some (layer_name layer) };

    fn fmt<W: fmt::Write>(&self, f: &mut fmt::Formatter<W>) -> fmt::Result {
        f.write_str(match self {
            Layer::Service => "service",
            Layer::Log => "log",
            Layer::Leader => "leader",
            Layer::Relay => "relay",
            Layer::Client => "client",
        })
    }
}

// These three by hand: what a `?` makes of a fault stands in `from_gives`, which no derive writes.
impl From<LeaderFault> for ServiceFault {
    ghost from_gives = { λ e r. r ≡ Leader e };

    fn from(e: LeaderFault) -> ServiceFault {
        ServiceFault::Leader(e)
    }
}

impl From<RelayFault> for ServiceFault {
    ghost from_gives = { λ e r. r ≡ Relay e };

    fn from(e: RelayFault) -> ServiceFault {
        ServiceFault::Relay(e)
    }
}

impl From<ClientFault> for ServiceFault {
    ghost from_gives = { λ e r. r ≡ Client e };

    fn from(e: ClientFault) -> ServiceFault {
        ServiceFault::Client(e)
    }
}

// These four by `match`: `LeaderFault`, which holds a `LogFault`, can have no discriminants, and here all stand together.
fn log_number(f: LogFault) -> u8
    ensures { result ≡ log_number f }
{
    match f {
        LogFault::VotersNotEnough => 3,
        LogFault::VoterNewer => 4,
        LogFault::TermsUsedUp => 5,
        LogFault::NoLeader => 6,
        LogFault::NothingToCopy => 13,
        LogFault::CountOutOfRange => 14,
        LogFault::OtherTerm => 15,
        LogFault::HoldersNotEnough => 16,
        LogFault::LogFull => 25,
        LogFault::NotCommitted => 26,
    }
}

fn leader_number(f: LeaderFault) -> u8
    ensures { result ≡ leader_number f }
{
    match f {
        LeaderFault::PartsUsedUp => 7,
        LeaderFault::NoReply => 17,
        LeaderFault::OtherSession => 21,
        LeaderFault::NumberNotAbove => 22,
        LeaderFault::NotReady => 23,
        LeaderFault::Uncommitted => 24,
        LeaderFault::TermBegun => 29,
        LeaderFault::Log(g) => log_number(g),
    }
}

fn relay_number(f: RelayFault) -> u8
    ensures { result ≡ relay_number f }
{
    match f {
        RelayFault::NothingToInstall => 8,
        RelayFault::Closed => 20,
        RelayFault::OtherSession => 21,
        RelayFault::NumbersUsedUp => 28,
    }
}

fn client_number(f: ClientFault) -> u8
    ensures { result ≡ client_number f }
{
    match f {
        ClientFault::Busy => 9,
        ClientFault::Idle => 10,
        ClientFault::NumbersUsedUp => 11,
        ClientFault::NotAwaited => 27,
    }
}

impl ServiceFault {
    // The number by which the fault is known everywhere.
    pub fn number(self) -> u8
        ensures { result ≡ number_of self }
    {
        match self {
            ServiceFault::Memory => 1,
            ServiceFault::NoSuch => 2,
            ServiceFault::TableFull => 12,
            ServiceFault::Malformed => 19,
            ServiceFault::Leader(f) => leader_number(f),
            ServiceFault::Relay(f) => relay_number(f),
            ServiceFault::Client(f) => client_number(f),
        }
    }

    // The layer that found the fault.
    pub fn layer(self) -> Layer
        ensures { result ≡ found_in self }
    {
        match self {
            ServiceFault::Leader(LeaderFault::Log(_)) => Layer::Log,
            ServiceFault::Leader(_) => Layer::Leader,
            ServiceFault::Relay(_) => Layer::Relay,
            ServiceFault::Client(_) => Layer::Client,
            _ => Layer::Service,
        }
    }

    // Numbers below 20 refuse a step, the others drop a message.
    pub fn class(self) -> Class
        ensures { result ≡ class_of self }
    {
        if self.number() < 20 {
            Class::Refused
        } else {
            Class::Dropped
        }
    }
}
