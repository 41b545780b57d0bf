// The record call: row 9 of the table of refusals, after row 1.
ghost use Rattle.std.specs.Prelude.{◌≡◌};
ghost use Rattle.records.specs.Refusals.{answered};
ghost use Rattle.records.specs.Call.{record_call, record_part, record_place};

use crate::check::check_length;
use crate::fields::Record;
use crate::layout::Layout;
use crate::refusals::{Refusal, Row, require};

// Where the record call finds record `number`: its offset, or the refusal.
#[tactic(auto, unfolding(crate::specs::Call::record_call))]
pub fn find_record(v: &[u8], number: u32) -> Result<usize, Refusal>
    ensures { answered result ≡ record_call v.now number }
{
    check_length(v)?;
    let at = number as usize;
    require(at < v.len() / Record::SIZE, Row::RecordNumber, at)?;
    Ok(Record::SIZE * at)
}

// The record call: the record's eight bytes as a part of the vocabulary, or an empty part where `find_record` refuses (no
// Option: `record_part` has it so).
pub fn record(v: &[u8], number: u32) -> &[u8]
    ensures bytes { result.now ≡ record_part v.now number }
    ensures within { result.ref_ptr ≡ record_place v.now number v.entry.ref_ptr }
{
    match find_record(v, number) {
        Ok(at) => &v[at..at + Record::SIZE],
        Err(_) => &v[..0],
    }
}
