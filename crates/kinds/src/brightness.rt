ghost use Rattle.std.specs.Prelude.{◌≡◌, pos, negsuc};
ghost use Rattle.std.specs.Float.Ieee.{is_nan, nan_bits, of_bits, of_int, of_fields, odd};
ghost use Rattle.std.specs.Float.{binary32};
ghost use Rattle.std.specs.Cmp.{decided, partial_equiv_from_equiv};
ghost use Rattle.kinds.specs.Brightness.{brightness_fits, well_formed_brightness, lawful_brightness, brightness_bytes, brightness_parsed, blank_brightness, same_brightness, lawful_magnitude, same_magnitude};
ghost use Rattle.kinds.specs.BrightnessLaws.{brightness_read, brightness_written};
ghost use Rattle.kinds.specs.SameMagnitude.{decides_brightness};

use crate::kind::RecordKind;
use crate::year::lawful_year;

// The brightest lawful magnitude.
const BRIGHTEST: f32 = -30.0;

// The faintest.
const FAINTEST: f32 = 30.0;

// How bright a star is: its visual and its blue magnitude, and the year that they hold for.
#[derive(Clone, Copy)]
pub struct Brightness {
    pub visual: f32,
    pub blue: f32,
    pub year: u16,
}

// Whether the bits are a NaN's. `from_bits` requires that they are not, so a float can't be asked.
fn is_nan_pattern(bits: u32) -> bool
    ensures { result ≡ nan_bits binary32 bits }
{
    bits % 0x8000_0000 > 0x7f80_0000
}

// Whether the magnitude is between the two, or one of them.
fn lawful_magnitude(m: f32) -> bool
    ensures { result ≡ lawful_magnitude m }
{
    (BRIGHTEST..=FAINTEST).contains(&m)
}

// Whether two magnitudes are one, by the bits: `==` takes minus zero and plus zero for one value.
// A NaN is one value, whatever its bits.
fn same_magnitude(a: f32, b: f32) -> bool
    ensures { result ≡ same_magnitude a b }
{
    if a.is_nan() {
        return b.is_nan();
    }
    if b.is_nan() {
        return false;
    }
    a.to_bits() == b.to_bits()
}

// By the bits, and so not derived: 0.0 and -0.0 are two values, and all NaNs are one.
impl PartialEq for Brightness {
    ghost eq = { same_brightness };

    ghost laws = { partial_equiv_from_equiv (decided same_brightness decides_brightness) };

    fn eq(&self, other: &Brightness) -> bool {
        same_magnitude(self.visual, other.visual)
            && same_magnitude(self.blue, other.blue)
            && self.year == other.year
    }
}

impl Eq for Brightness {
    ghost laws = { decided same_brightness decides_brightness };
}

impl RecordKind for Brightness {
    ghost fits = { brightness_fits };

    ghost well_formed = { well_formed_brightness };

    ghost lawful = { lawful_brightness };

    ghost bytes = { brightness_bytes };

    ghost parsed = { brightness_parsed };

    ghost blank_value = { blank_brightness };

    ghost read_back = { λ v h w. brightness_read v h w };

    ghost written_back = { λ b v s e. brightness_written b v s e };

    ghost blank_well_formed = { unfold is_nan of_bits of_fields odd in tt };

    ghost eq_decides = { λ p q. decides_brightness p q };

    // A NaN is malformed; an infinity is well formed.
    fn is_well_formed(self) -> bool {
        !self.visual.is_nan() && !self.blue.is_nan()
    }

    fn is_lawful(self) -> bool {
        lawful_magnitude(self.visual) && lawful_magnitude(self.blue) && lawful_year(self.year)
    }

    fn to_bytes(self) -> Option<[u8; 16]> {
        if !self.is_well_formed() {
            return None;
        }
        let [v0, v1, v2, v3] = self.visual.to_le_bytes();
        let [b0, b1, b2, b3] = self.blue.to_le_bytes();
        let [y0, y1] = self.year.to_le_bytes();
        Some([v0, v1, v2, v3, b0, b1, b2, b3, y0, y1, 0, 0, 0, 0, 0, 0])
    }

    fn from_bytes(b: &[u8; 16]) -> Option<Brightness> {
        if [b[10], b[11], b[12], b[13], b[14], b[15]] != [0; 6] {
            return None;
        }
        let visual = u32::from_le_bytes([b[0], b[1], b[2], b[3]]);
        let blue = u32::from_le_bytes([b[4], b[5], b[6], b[7]]);
        if is_nan_pattern(visual) || is_nan_pattern(blue) {
            return None;
        }
        Some(Brightness {
            visual: f32::from_bits(visual),
            blue: f32::from_bits(blue),
            year: u16::from_le_bytes([b[8], b[9]]),
        })
    }

    fn blank() -> Brightness {
        Brightness {
            visual: 0.0,
            blue: 0.0,
            year: 0,
        }
    }
}
