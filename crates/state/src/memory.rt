ghost use Rattle.std.specs.Prelude.{◌≡◌, IfOk, vec_len};
ghost use Rattle.raft_log.specs.Calls.{blank_entry};
ghost use Rattle.state.specs.Memory.{no_message};

use entries::{Entry, Stamp};
use kinds::RecordKind;
use relay::{Body, Message};
use std::alloc::{AllocError, Global};

// A vector of n values, each x, to lend.
pub fn filled<T: Copy>(heap: Global, x: T, n: usize) -> Result<Vec<T>, AllocError>
    ensures { IfOk result (λ v. vec_len v ≡ n) }
{
    vec![in heap; x; n]
}

// What stands in an entry that is not used.
pub fn blank_entry<V: RecordKind>() -> Entry<V>
    ensures { result ≡ blank_entry V.RecordKind.blank_value }
{
    Entry {
        term: 0,
        stamp: Stamp::default(),
        client: 0,
        number: 0,
        star: 0,
        value: V::blank(),
    }
}

// What stands in a place of the table that is not used.
pub fn blank_message<V: RecordKind>() -> Message<V>
    ensures { result ≡ no_message }
{
    Message {
        client: 0,
        number: 0,
        star: 0,
        session: 0,
        body: Body::ReadRequest,
        value: None,
    }
}

#[cfg(test)]
mod tests {
    use super::*;
    use std::test::Fail;

    #[test]
    fn lends_as_much_as_is_asked(rt: HostRuntime) -> Result<(), Fail> {
        for n in [0, 1, 192] {
            let lent = filled(rt.alloc(), 7u8, n)?;
            assert_eq!(rt; lent.len(), n);
            assert!(rt; lent.iter().all(|x| *x == 7));
        }
        Ok(())
    }
}
