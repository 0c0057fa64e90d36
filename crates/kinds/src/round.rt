ghost use Rattle.std.specs.Prelude.{◌≡◌, is_some, if◌then◌else◌, Some, None};

use crate::kind::RecordKind;

// Writes the value and reads its bytes again: a well-formed value comes back.
pub fn reread<V: RecordKind>(v: V) -> Option<V>
    ensures { result ≡ (if V.RecordKind.well_formed v then Some v else None) }
{
    let bytes = v.to_bytes()?;
    V::from_bytes(&bytes)
}

// Reads the bytes and writes what was read: bytes that are read come back.
pub fn rewritten<V: RecordKind>(b: &[u8; 16]) -> Option<[u8; 16]>
    ensures { result ≡ (if is_some (V.RecordKind.parsed b.now) then Some b.now else None) }
{
    let value = V::from_bytes(b)?;
    value.to_bytes()
}
