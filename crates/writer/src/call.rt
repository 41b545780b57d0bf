// The three calls of the writer.
ghost use Rattle.std.specs.Prelude.{◌≡◌, ◌+◌, ◌/◌, ◌≤◌, length, take};
ghost use Rattle.records.specs.Refusals.{answered};
ghost use Rattle.records.specs.Check.{IsWellFormed};
ghost use Rattle.records.specs.Finite.{put};
ghost use Rattle.records.specs.Format.{record_size, record_limit, word_size, word_bytes, record_bytes, atoms_held};
ghost use Rattle.writer.specs.Additions.{record_with, link_place, term, statement};
ghost use Rattle.writer.specs.Calls.{making, adding, new_length, buffer_after};
ghost use Rattle.writer.specs.Code.Counting.{raised};

use crate::check::check_addition;
use records::chain::find_end;
use records::fields::Record;
use records::kinds::Kind;
use records::layout::Layout;
use records::refusals::{Refusal, Row, require};

// Writes a record over eight bytes of the buffer.
fn write_record(buffer: &mut [u8], at: usize, f: Record)
    requires { at + record_size ≤ length buffer.old }
    ensures { buffer.new ≡ put buffer.old at (record_bytes f) }
{
    f.write(&mut buffer[at..at + Record::SIZE]);
}

// Writes a number over two bytes of the buffer.
fn write_word(buffer: &mut [u8], at: usize, x: u16)
    requires { at + word_size ≤ length buffer.old }
    ensures { buffer.new ≡ put buffer.old at (word_bytes x) }
{
    buffer[at..at + Record::WORD].copy_from_slice(&x.to_le_bytes());
}

// Where the link to a new statement stands: in the next of the last chained statement, or in the header's A.
fn find_link(v: &[u8]) -> usize
    requires { IsWellFormed v.now }
    ensures place { result ≡ link_place v.now }
    ensures within { result + word_size ≤ length v.now }
{
    match find_end(v) {
        0 => Record::A_AT,
        end => Record::SIZE * end + Record::NEXT_AT,
    }
}

// Links the record behind the bytes in use, a new statement, to the end of their chain. (A buffer and how much of it is in use,
// as C lends them.)
fn link_behind(buffer: &mut [u8], used: usize)
    requires used_in_bounds { used ≤ length buffer.old }
    requires well_formed { IsWellFormed (take used buffer.old) }
    ensures { buffer.new
        ≡ put buffer.old (link_place (take used buffer.old)) (word_bytes (used / record_size)) }
{
    let link = find_link(&buffer[..used]);
    write_word(buffer, link, (used / Record::SIZE) as u16);
}

// Counts the record, if it is an atom, in the k of an edition 2 header. Edition 1 holds none.
fn raise_atoms(buffer: &mut [u8], f: Record)
    requires record_size_in_bounds { record_size ≤ length buffer.old }
    requires buffer_bound { atoms_held buffer.old ≤ record_limit }
    ensures { buffer.new ≡ raised f.kind buffer.old }
{
    let header = Record::read_at(buffer, 0);
    // (The edition is a number, as row 2 has it.)
    if header.second == 2 && f.is_atom() {
        write_word(buffer, Record::NEXT_AT, header.next + 1);
    }
}

// An empty vocabulary with so many roles: its length, or the refusal, which writes nothing.
#[tactic(auto, unfolding(crate::specs::Calls::making))]
pub fn make_vocabulary(buffer: &mut [u8], roles: u32) -> Result<usize, Refusal>
    ensures result_value { answered result ≡ new_length (making (length buffer.old) roles) }
    ensures buffer_after { buffer.new ≡ buffer_after (making (length buffer.old) roles) buffer.old }
{
    require(Record::SIZE <= buffer.len(), Row::RecordRoom, 0)?;
    require(roles <= u32::from(Record::ROLES), Row::Header, 0)?;
    let header = Record {
        kind: Record::HEADER,
        second: 2,
        a: 0,
        b: roles as u16,
        next: 0,
    };
    write_record(buffer, 0, header);
    Ok(Record::SIZE)
}

// The fields of a new record: second byte and next are 0. (The kind is a number here and below, since C may give any.)
fn fields_of(kind: u8, a: u16, b: u16) -> Record
    ensures { result ≡ record_with kind a b }
{
    Record {
        kind,
        second: 0,
        a,
        b,
        next: 0,
    }
}

// A term behind the bytes in use: their new length, or the refusal, which writes nothing.
pub fn add_term(buffer: &mut [u8], used: usize, kind: u8, a: u16, b: u16) -> Result<usize, Refusal>
    ensures result_value { answered result ≡ new_length (adding buffer.old used (term kind a b)) }
    ensures buffer_after { buffer.new
        ≡ buffer_after (adding buffer.old used (term kind a b)) buffer.old }
{
    let f = fields_of(kind, a, b);
    check_addition(buffer, used, f.is_term(), f)?;
    raise_atoms(buffer, f);
    write_record(buffer, used, f);
    Ok(used + Record::SIZE)
}

// A statement behind the bytes in use, at the end of the chain: their new length, or the refusal, which writes nothing. (What a
// term and a statement do between the check and the record differs; with a closure for it neither would be plainer.)
pub fn add_statement(buffer: &mut [u8], used: usize, a: u16, b: u16) -> Result<usize, Refusal>
    ensures result_value { answered result ≡ new_length (adding buffer.old used (statement a b)) }
    ensures buffer_after { buffer.new
        ≡ buffer_after (adding buffer.old used (statement a b)) buffer.old }
{
    let f = fields_of(Kind::Inclusion as u8, a, b);
    check_addition(buffer, used, true, f)?;
    link_behind(buffer, used);
    write_record(buffer, used, f);
    Ok(used + Record::SIZE)
}
