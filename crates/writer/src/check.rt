// What the writer refuses: rows 1 to 8 and 28 of the bytes in use, row 27, and rows 3 to 7 of the new record.
ghost use Rattle.std.specs.Prelude.{◌≡◌, ◌&&◌, ◌+◌, ◌≤◌, length, ltb, leb};
ghost use Rattle.records.specs.Outcome.{◌then◌};
ghost use Rattle.records.specs.Refusals.{answered};
ghost use Rattle.records.specs.Format.{record_size, record_limit};
ghost use Rattle.records.specs.Check.{vocabulary_rows};
ghost use Rattle.writer.specs.Calls.{room_check};
ghost use Rattle.writer.specs.Code.Checks.{new_record_check, addition_check};

use records::fields::Record;
use records::layout::Layout;
use records::refusals::{Refusal, Row, require};

// Whether one more record may stand behind so many, which take `used` of `size` bytes.
fn has_room(records: usize, used: usize, size: usize) -> bool
    requires { used ≤ size }
    ensures { result ≡ (ltb records record_limit && leb (used + record_size) size) }
{
    records < Record::LIMIT && size - used >= Record::SIZE
}

// The vocabulary check of the bytes in use, then row 27, in a buffer of this size.
#[tactic(auto, using(crate::proofs::Refinement::Checks::room_refused, crate::proofs::Refinement::Checks::room_fine))]
fn check_room(v: &[u8], size: usize) -> Result<(), Refusal>
    requires { length v.now ≤ size }
    ensures { answered result ≡ (vocabulary_rows v.now then room_check v.now size) }
{
    let records = records::check_vocabulary(v)?;
    require(has_room(records, v.len(), size), Row::RecordRoom, records)
}

// These, then 3 for a record that no call adds, then rows 3 to 7 at the new record, with the fields f.
#[tactic(auto, unfolding(crate::specs::Code::Checks::new_record_check))]
fn check_record_behind(v: &[u8], size: usize, addable: bool, f: Record) -> Result<(), Refusal>
    requires { length v.now ≤ size }
    ensures { answered result ≡ new_record_check v.now size addable f }
{
    check_room(v, size)?;
    let i = v.len() / Record::SIZE;
    require(addable, Row::Kind, i)?;
    records::check_new_record(v, i, Record::read_at(v, 0).b, f)
}

// All that an addition is refused for, first a length past the buffer. (Which kinds a call adds is told by a flag: all else is
// the same for both.)
#[tactic(auto, unfolding(crate::specs::Code::Checks::addition_check))]
pub fn check_addition(buffer: &[u8], used: usize, addable: bool, f: Record) -> Result<(), Refusal>
    ensures { answered result ≡ addition_check buffer.now used addable f }
{
    require(used <= buffer.len(), Row::Length, 0)?;
    check_record_behind(&buffer[..used], buffer.len(), addable, f)
}
