ghost use Rattle.std.specs.Prelude.{◌≡◌, true};
ghost use Rattle.kinds.specs.Place.{place_fits, lawful_declination, lawful_motion, lawful_place, place_bytes, place_parsed, blank_place};
ghost use Rattle.kinds.specs.PlaceLaws.{place_written};
ghost use Rattle.kinds.specs.SamePlace.{decides_place};
ghost use Rattle.std.proofs.Common.{rules};

use crate::kind::RecordKind;
use crate::year::lawful_year;

// Where a star stands: right ascension and declination, its motion in each, and the year that
// they hold for.
#[derive(Clone, Copy, PartialEq, Eq, Default)]
pub struct Place {
    pub ascension: u32,
    pub declination: i32,
    pub motion_ra: i16,
    pub motion_dec: i16,
    pub year: u16,
}

// A declination from -90 to 90 degrees, in thousandths of a second of arc.
fn lawful_declination(declination: i32) -> bool
    ensures { result ≡ lawful_declination declination }
{
    (-324_000_000..=324_000_000).contains(&declination)
}

fn lawful_motion(motion: i16) -> bool
    ensures { result ≡ lawful_motion motion }
{
    (-20_000..=20_000).contains(&motion)
}

impl RecordKind for Place {
    ghost fits = { place_fits };

    ghost well_formed = { λ _. true };

    ghost lawful = { lawful_place };

    ghost bytes = { place_bytes };

    ghost parsed = { place_parsed };

    ghost blank_value = { blank_place };

    ghost read_back = { Prim.search rules };

    ghost written_back = { λ b v s e. let w = place_written b v s e in (w.0, tt, w.1) };

    ghost blank_well_formed = { Prim.search rules };

    ghost eq_decides = { λ p q. decides_place p q };

    // Every place is well formed.
    fn is_well_formed(self) -> bool {
        true
    }

    fn is_lawful(self) -> bool {
        (self.ascension <= 1_295_999_999)
            & lawful_declination(self.declination)
            & lawful_motion(self.motion_ra)
            & lawful_motion(self.motion_dec)
            & lawful_year(self.year)
    }

    fn to_bytes(self) -> Option<[u8; 16]> {
        let [a0, a1, a2, a3] = self.ascension.to_le_bytes();
        let [d0, d1, d2, d3] = self.declination.to_le_bytes();
        let [m0, m1] = self.motion_ra.to_le_bytes();
        let [n0, n1] = self.motion_dec.to_le_bytes();
        let [y0, y1] = self.year.to_le_bytes();
        Some([a0, a1, a2, a3, d0, d1, d2, d3, m0, m1, n0, n1, y0, y1, 0, 0])
    }

    fn from_bytes(b: &[u8; 16]) -> Option<Place> {
        if [b[14], b[15]] != [0; 2] {
            return None;
        }
        Some(Place {
            ascension: u32::from_le_bytes([b[0], b[1], b[2], b[3]]),
            declination: i32::from_le_bytes([b[4], b[5], b[6], b[7]]),
            motion_ra: i16::from_le_bytes([b[8], b[9]]),
            motion_dec: i16::from_le_bytes([b[10], b[11]]),
            year: u16::from_le_bytes([b[12], b[13]]),
        })
    }

    fn blank() -> Place {
        Place::default()
    }
}
