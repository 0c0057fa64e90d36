ghost use Rattle.std.specs.Prelude.{◌≡◌, ◌<◌};
ghost use Rattle.relay.specs.Rows.{closed, installed, installable};

use crate::fault::RelayFault;
use entries::Stamp;

// What settles a row: the zone's last committed entry has the stamp and lies within the first
// `index` entries, which the copies in `holders` hold.
#[derive(Clone, Copy, Default)]
pub struct Settlement {
    pub index: u16,
    pub holders: u8,
    pub stamp: Stamp,
}

// What the relay knows of a zone.
#[derive(Clone, Copy, Default)]
pub struct Row {
    // The latest sequence number that was issued for the zone.
    pub latest: u16,
    pub settled: Option<Settlement>,
}

// The rows that a session begins with, as the leader saw them. Their latest numbers are 0.
#[derive(Clone, Copy)]
pub struct Snapshot {
    pub session: u32,
    pub leader: u8,
    pub rows: [Row; 16],
}

// What an open relay has beside its session.
#[derive(Clone, Copy)]
pub struct Opened {
    // The last sequence number that was issued.
    pub sequence: u16,
    pub turn: u8,
    pub rows: [Row; 16],
}

// The session is the highest installed one, and the relay's own while it is open.
#[derive(Clone, Copy)]
pub struct Relay {
    pub session: u32,
    pub opened: Option<Opened>,
}

impl Relay {
    // A closed relay, of which only the highest installed session is known.
    pub fn closed(session: u32) -> Relay
        ensures { result ≡ closed session }
    {
        Relay {
            session,
            opened: None,
        }
    }

    // The snapshot, if it is above the highest installed session.
    pub fn installable(&self, snapshot: Option<Snapshot>) -> Result<Snapshot, RelayFault>
        ensures { result ≡ installable self.now snapshot }
    {
        snapshot
            .filter(|s| s.session > self.session)
            .ok_or(RelayFault::NothingToInstall)
    }

    // Opens the relay with the snapshot's rows.
    pub fn install(&mut self, snapshot: Snapshot)
        ensures { self.new ≡ installed snapshot }
    {
        let rows = snapshot.rows;
        self.session = snapshot.session;
        self.opened = Some(Opened {
            sequence: 0,
            turn: 0,
            rows,
        });
    }

    // Closes the relay; only its highest installed session survives.
    pub fn restart(&mut self)
        ensures { self.new ≡ closed self.old.session }
    {
        self.opened = None;
    }
}
