ghost use Rattle.std.specs.Prelude.{◌≡◌};
ghost use Rattle.scenario.specs.Numbers.{decimal, with_digit, integer};

// The number with one more digit, if the byte is one and the number stays within `most`.
fn with_digit(n: u32, byte: u8, most: u32) -> Option<u32>
    ensures { result ≡ with_digit most n byte }
{
    if !byte.is_ascii_digit() {
        return None;
    }
    let more = u64::from(n) * 10 + u64::from(byte - b'0');
    u32::try_from(more).ok().filter(|more| *more <= most)
}

// The number that the bytes write in decimal digits, if it is at most `most`.
#[tactic(auto, using(crate::proofs::Reading::place_no, crate::proofs::Reading::place_yes, crate::proofs::Reading::place_end, crate::proofs::Reading::whole))]
pub fn decimal(word: &[u8], most: u32) -> Option<u32>
    ensures { result ≡ decimal most word.now }
{
    if word.is_empty() {
        return None;
    }
    // A loop: with `try_fold` the proof that the digits so far make the number did not close.
    let mut n = 0;
    for byte in word {
        n = with_digit(n, *byte, most)?;
    }
    Some(n)
}

// The number of 32 bits that the bytes write, with a minus sign before it or none.
pub fn integer(word: &[u8]) -> Option<i64>
    ensures { result ≡ integer word.now }
{
    match word {
        [b'-', digits @ ..] => decimal(digits, u32::MAX).map(|size| -i64::from(size)),
        _ => decimal(word, u32::MAX).map(i64::from),
    }
}
