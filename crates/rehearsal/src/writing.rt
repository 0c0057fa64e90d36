ghost use Rattle.std.specs.Prelude.{◌≡◌};
ghost use Rattle.rehearsal.specs.Encode.{record_of, fault_record, bytes_of, answer_record, encoded};

use client::Answer;
use delivery::Effect;
use kinds::RecordKind;
use state::ServiceFault;

// The classes of a record without a fault, as numbers: an enum of all four would list `Class` again, which has 1 and 2.
const DONE: u8 = 0;

const ANSWERED: u8 = 3;

// The record of an outcome: code, class, number, layer, result and value.
fn record_of(code: u8, class: u8, number: u8, layer: u8, res: u32, value: [u8; 16]) -> [u8; 24]
    ensures { result ≡ record_of code class number layer res value }
{
    let mut record = [0; 24];
    record[..4].copy_from_slice(&[code, class, number, layer]);
    record[4..8].copy_from_slice(&res.to_le_bytes());
    record[8..].copy_from_slice(&value);
    record
}

// The record of a refusal or a drop.
pub fn fault_record(code: u8, fault: ServiceFault) -> [u8; 24]
    ensures { result ≡ fault_record code fault }
{
    record_of(
        code,
        fault.class() as u8,
        fault.number(),
        fault.layer().number(),
        0,
        [0; 16],
    )
}

// The bytes of a value that was read; zeros for none, and for one that has no bytes.
fn bytes_of<V: RecordKind>(value: Option<V>) -> [u8; 16]
    ensures { result ≡ bytes_of V.RecordKind.well_formed V.RecordKind.bytes value }
{
    value.and_then(|v| v.to_bytes()).unwrap_or([0; 16])
}

// The record of an answer that a client took.
fn answer_record<V: RecordKind>(code: u8, answer: Answer<V>) -> [u8; 24]
    ensures { result ≡ answer_record V.RecordKind.well_formed V.RecordKind.bytes code answer }
{
    match answer {
        Answer::Reading(value) => {
            record_of(
                code,
                ANSWERED,
                0,
                0,
                u32::from(value.is_some()),
                bytes_of(value),
            )
        }
        Answer::Correction { outcome: _, index } => {
            record_of(code, ANSWERED, 0, 0, u32::from(index), [0; 16])
        }
    }
}

// The record of what came of a step.
pub fn encode<V: RecordKind>(code: u8, outcome: Result<Effect<V>, ServiceFault>) -> [u8; 24]
    ensures { result ≡ encoded V.RecordKind.well_formed V.RecordKind.bytes code outcome }
{
    match outcome {
        Ok(Effect::Done(n)) => record_of(code, DONE, 0, 0, n, [0; 16]),
        Ok(Effect::Dropped(fault)) => fault_record(code, fault),
        Ok(Effect::Answered(answer)) => answer_record(code, answer),
        Err(fault) => fault_record(code, fault),
    }
}
