ghost use Rattle.std.specs.Prelude.{◌≡◌};
ghost use Rattle.rehearsal.specs.Decode.{all_zero, correct_of, by_code, decoded};

use kinds::RecordKind;
use service::Call;

// What a record holds beside the value's bytes: the code, A, B and N.
#[derive(Clone, Copy)]
struct Fields {
    code: u8,
    a: u8,
    b: u8,
    n: u32,
    // Whether the value's bytes are all zero.
    blank: bool,
}

fn all_zero(bytes: &[u8]) -> bool
    ensures { result ≡ all_zero bytes.now }
{
    bytes.iter().all(|b| *b == 0)
}

// A correction, if its value is well formed and B is zero.
fn correct_call<V: RecordKind>(a: u8, b: u8, n: u32, value: &[u8; 16]) -> Option<Call<V>>
    ensures { result ≡ correct_of V.RecordKind.parsed a b n value.now }
{
    let value = V::from_bytes(value)?;
    (b == 0).then_some(Call::Correct {
        client: a,
        star: n,
        value,
    })
}

// The call of the code, if the fields that it does not use are zero.
// Codes are numbers here: an enum of them would list the calls a second time.
#[tactic(auto, unfolding(crate::specs::Decode::by_code))]
fn by_code<V: RecordKind>(f: Fields, value: &[u8; 16]) -> Option<Call<V>>
    ensures { result ≡ by_code V.RecordKind.parsed f.code f.a f.b f.n f.blank value.now }
{
    let Fields {
        code,
        a,
        b,
        n,
        blank,
    } = f;
    let plain = (b == 0) & blank;
    let only_a = plain & (n == 0);
    let only_n = (a == 0) & plain;
    let none = only_n & (n == 0);
    match code {
        1 => ((n == 0) & blank).then_some(Call::Elect { copy: a, voters: b }),
        2 => none.then_some(Call::Open),
        3 => none.then_some(Call::Install),
        4 => none.then_some(Call::Restart),
        5 => plain.then_some(Call::Read { client: a, star: n }),
        6 => correct_call(a, b, n, value),
        7 => only_a.then_some(Call::Again { client: a }),
        8 => only_a.then_some(Call::Abandon { client: a }),
        9 => only_n.then_some(Call::Deliver { place: n }),
        10 => only_n.then_some(Call::Lose { place: n }),
        11 => only_n.then_some(Call::Double { place: n }),
        12 => only_a.then_some(Call::Copy { copy: a }),
        13 => only_n.then_some(Call::Commit { count: n }),
        14 => only_n.then_some(Call::Reply { index: n }),
        _ => None,
    }
}

// The step that a record asks for, or none where it is malformed.
pub fn decode<V: RecordKind>(bytes: &[u8]) -> Option<Call<V>>
    ensures { result ≡ decoded V.RecordKind.parsed bytes.now }
{
    let (head, value) = bytes.split_last_chunk::<16>()?;
    let [code, a, b, 0, n0, n1, n2, n3] = head else {
        return None;
    };
    let f = Fields {
        code: *code,
        a: *a,
        b: *b,
        n: u32::from_le_bytes([*n0, *n1, *n2, *n3]),
        blank: all_zero(value),
    };
    by_code(f, value)
}
