ghost use Rattle.std.specs.Prelude.{◌≡◌, ℕ, ◌<◌, Bool, T, List, if◌then◌else◌, Some, None, Decides, Option};
ghost use Rattle.kinds.specs.Bytes.{Sixteen};

// A record kind: the type of a correction's value. A kind says which values are well formed and
// which of these are lawful, by the value alone, has sixteen bytes for each well-formed value, and
// by `==` says whether two values are one.
pub trait RecordKind: Copy + Eq {
    // Each number in the value fits its type, as in every value of a program.
    ghost fits: { Self → Type 0 };

    ghost well_formed: { Self → Bool };

    ghost lawful: { Self → Bool };

    // The sixteen bytes of a well-formed value.
    ghost bytes: { Self → List ℕ };

    // The value that sixteen bytes are read as, or none where they are refused.
    ghost parsed: { List ℕ → Option Self };

    ghost blank_value: { Self };

    fn is_well_formed(self) -> bool
        ensures { result ≡ well_formed self };

    fn is_lawful(self) -> bool
        ensures { result ≡ lawful self };

    // The value's bytes, or none for a malformed value.
    // No TryFrom: the two directions have their laws together below, as members of one trait.
    fn to_bytes(self) -> Option<[u8; 16]>
        ensures value { result ≡ (if well_formed self then Some (bytes self) else None) }
        ensures numbers { fits self };

    fn from_bytes(b: &[u8; 16]) -> Option<Self>
        ensures { result ≡ parsed b.now };

    fn blank() -> Self
        ensures { result ≡ blank_value };

    // Each well-formed value is read back from its bytes.
    ghost read_back: { (v : Self) → fits v → T (well_formed v) → parsed (bytes v) ≡ Some v };

    // What is read is well formed, and it is written as the bytes that it was read from.
    ghost written_back: { (b : List ℕ) (v : Self) → Sixteen b → parsed b ≡ Some v → fits v × T (well_formed v) × (bytes v ≡ b) };

    ghost blank_well_formed: { T (well_formed blank_value) };

    // `==` decides equality.
    ghost eq_decides: { (a b : Self) → Decides (Self.eq a b) (a ≡ b) };
}
