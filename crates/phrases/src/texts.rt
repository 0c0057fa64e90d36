use client::{Client, Waiting};
use entries::{Entry, Stamp};
use kinds::Place;
use relay::{Row, Settlement};
use std::fmt;

// A session as TERM.PART.
#[derive(Drop)]
pub struct SessionText(pub u32);

impl fmt::Display for SessionText {
    fn fmt<W: fmt::Write>(&self, f: &mut fmt::Formatter<W>) -> fmt::Result {
        write!(f, "{}.{}", self.0 / 65536, self.0 % 65536)
    }
}

#[derive(Drop)]
pub struct StampText(pub Stamp);

impl fmt::Display for StampText {
    fn fmt<W: fmt::Write>(&self, f: &mut fmt::Formatter<W>) -> fmt::Result {
        match self.0 {
            Stamp { session: 0, .. } => f.write_str("no entry of the zone"),
            Stamp { session, number } => {
                write!(f, "stamp {} number {number}", SessionText(session))
            }
        }
    }
}

// A set of copies.
#[derive(Drop)]
pub struct SetText(pub u8);

impl fmt::Display for SetText {
    fn fmt<W: fmt::Write>(&self, f: &mut fmt::Formatter<W>) -> fmt::Result {
        if self.0 == 0 {
            return f.write_str("no copies");
        }
        let one = votes::set_size(8, self.0) == 1;
        f.write_str(if one { "copy" } else { "copies" })?;
        for copy in (0..8u8).filter(|copy| votes::has(self.0, *copy)) {
            write!(f, " {copy}")?;
        }
        Ok(())
    }
}

#[derive(Drop)]
pub struct PlaceText(pub Place);

impl fmt::Display for PlaceText {
    fn fmt<W: fmt::Write>(&self, f: &mut fmt::Formatter<W>) -> fmt::Result {
        let Place {
            ascension,
            declination,
            motion_ra,
            motion_dec,
            year,
        } = self.0;
        write!(
            f,
            "ra {ascension} dec {declination} pm {motion_ra} {motion_dec} year {year}"
        )
    }
}

// A value, or that there is none.
#[derive(Drop)]
pub struct ValueText(pub Option<Place>);

impl fmt::Display for ValueText {
    fn fmt<W: fmt::Write>(&self, f: &mut fmt::Formatter<W>) -> fmt::Result {
        match self.0 {
            Some(place) => write!(f, "{}", PlaceText(place)),
            None => f.write_str("no correction yet"),
        }
    }
}

#[derive(Drop)]
pub struct EntryText(pub Entry<Place>);

impl fmt::Display for EntryText {
    fn fmt<W: fmt::Write>(&self, f: &mut fmt::Formatter<W>) -> fmt::Result {
        let Entry {
            term,
            stamp,
            star,
            client,
            number,
            value,
        } = self.0;
        write!(f, "term {term}  {}  ", StampText(stamp))?;
        if star == 0 {
            return f.write_str("opening entry");
        }
        let place = PlaceText(value);
        write!(f, "client {client} number {number}  star {star}  {place}")
    }
}

// What settles a row.
#[derive(Drop)]
pub struct SettlementText(pub Settlement);

impl fmt::Display for SettlementText {
    fn fmt<W: fmt::Write>(&self, f: &mut fmt::Formatter<W>) -> fmt::Result {
        let index = self.0.index;
        let set = SetText(self.0.holders);
        let stamp = StampText(self.0.stamp);
        write!(f, "index {index}, {set}, {stamp}")
    }
}

#[derive(Drop)]
pub struct RowText(pub Row);

impl fmt::Display for RowText {
    fn fmt<W: fmt::Write>(&self, f: &mut fmt::Formatter<W>) -> fmt::Result {
        let latest = self.0.latest;
        match self.0.settled {
            Some(settlement) => write!(
                f,
                "settled, latest number {latest}, {}",
                SettlementText(settlement)
            ),
            None => write!(f, "unsettled, latest number {latest}"),
        }
    }
}

#[derive(Drop)]
pub struct ClientText(pub Client);

impl fmt::Display for ClientText {
    fn fmt<W: fmt::Write>(&self, f: &mut fmt::Formatter<W>) -> fmt::Result {
        let Client { number, waiting } = self.0;
        match waiting {
            Waiting::Nothing => write!(f, "idle, last number {number}"),
            Waiting::Reading { star } => write!(
                f,
                "waiting for a reading of star {star}, number {number}"
            ),
            Waiting::Correction { star } => write!(
                f,
                "waiting for a correction of star {star}, number {number}"
            ),
        }
    }
}

// A number of entries.
#[derive(Drop)]
pub struct EntriesText(pub u32);

impl fmt::Display for EntriesText {
    fn fmt<W: fmt::Write>(&self, f: &mut fmt::Formatter<W>) -> fmt::Result {
        match self.0 {
            1 => f.write_str("1 entry"),
            count => write!(f, "{count} entries"),
        }
    }
}
