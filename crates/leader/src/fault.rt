ghost use Rattle.std.specs.Prelude.{◌≡◌};
ghost use Rattle.leader.specs.declared.fault.LeaderFault.TheVariants.{Log};

use raft_log::LogFault;

// Why the leader's part refuses a step, or drops a message.
#[derive(Clone, Copy)]
pub enum LeaderFault {
    PartsUsedUp,
    // The entry is an opening entry, or of another session.
    NoReply,
    OtherSession,
    // The sequence number is not above the leader's last.
    NumberNotAbove,
    NotReady,
    // The log has the client's number, still uncommitted.
    Uncommitted,
    // The log already has an entry of this term.
    TermBegun,
    Log(LogFault),
}

// By hand: what a `?` makes of a fault stands in `from_gives`, which no derive writes.
impl From<LogFault> for LeaderFault {
    ghost from_gives = { λ e r. r ≡ Log e };

    fn from(e: LogFault) -> LeaderFault {
        LeaderFault::Log(e)
    }
}
