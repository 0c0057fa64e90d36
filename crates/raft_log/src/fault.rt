// Why the log refuses a call, or drops a message.
#[derive(Clone, Copy)]
pub enum LogFault {
    // The voters are not enough to elect.
    VotersNotEnough,
    // A voter's log is newer than the candidate's.
    VoterNewer,
    TermsUsedUp,
    NoLeader,
    NothingToCopy,
    // The count is not above the known count, or is beyond the log; for one entry: 0 or above the known count.
    CountOutOfRange,
    // The last entry to be committed is not of the present term.
    OtherTerm,
    // The holders are not enough to commit.
    HoldersNotEnough,
    LogFull,
    // The copy's first entries are not the committed log's.
    NotCommitted,
}
