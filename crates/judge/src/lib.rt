// The boundary to C. Every call answers one number, so that nothing but a lent buffer is ever written;
// include/judge.h declares the calls, specs/Packed.antt says which number stands for which outcome, and specs/Unpacked.antt
// what its bits say.
#![tactic(auto)]

ghost use Rattle.std.specs.Prelude.{◌≡◌, true, false, ◌+◌, ◌*◌, ◌<◌, ◌^◌, length};
ghost use Rattle.records.specs.Check.{vocabulary_check};
ghost use Rattle.records.specs.Call.{record_call};
ghost use Rattle.writer.specs.Additions.{term, statement};
ghost use Rattle.writer.specs.Calls.{making, adding, new_length, buffer_after};
ghost use Rattle.types.specs.Comparison.{comparison};
ghost use Rattle.types.specs.Bitmap.{written};
ghost use Rattle.taxonomy.specs.Taxonomy.{classification, first_after, second_after};
ghost use Rattle.scripts.specs.Run.{script_check};
ghost use Rattle.records.specs.Outcome.{accepted};
ghost use Rattle.judge.specs.Version.{version};
ghost use Rattle.judge.specs.Packed.{value_of, packed, packed_parts, packed_verdict, packed_counts};
ghost use Rattle.judge.specs.Unpacked.{TakenApart};
ghost use Rattle.records.specs.Refusals.{answered, number_of};

use records::refusals::Refusal;
use types::answers::{Compared, Counts};

// What the bits of every answer say, as a contract, so that the statement cannot be taken away unseen (tests/statements.sh).
pub fn hold()
    ensures { TakenApart }
{}

// Bits 0 to 7: the refusal's number, or 0. Bits 8 to 39: its place, or the value answered. C has these bits as numbers.
fn pack(number: u8, value: usize) -> u64
    requires { value < 2 ^ 32 }
    ensures { result ≡ number + 256 * value }
{
    u64::from(number) + 256 * (value as u64)
}

fn pack_refusal(refusal: Refusal) -> u64
    requires { refusal.place < 2 ^ 32 }
    ensures { result ≡ number_of refusal.row + 256 * refusal.place }
{
    pack(refusal.row.number(), refusal.place)
}

fn pack_answer(answer: Result<usize, Refusal>) -> u64
    requires { value_of (answered answer) < 2 ^ 32 }
    ensures { result ≡ packed (answered answer) }
{
    match answer {
        Ok(value) => pack(0, value),
        Err(refusal) => pack_refusal(refusal),
    }
}

// Bits 25 to 41: the survivors. Bits 42 to 58: the rounds.
fn pack_counts(counts: Counts) -> u64
    requires survivors_bound { counts.survivors < 2 ^ 17 }
    requires rounds_bound { counts.rounds < 2 ^ 17 }
    ensures { result ≡ packed_parts false 0 counts.survivors counts.rounds }
{
    33554432 * (counts.survivors as u64) + 4398046511104 * (counts.rounds as u64)
}

// The same, with bit 8, which is 1 for Different. Bits 9 to 24: the element.
fn pack_different(element: usize, counts: Counts) -> u64
    requires element_bound { element < 2 ^ 16 }
    requires survivors_bound { counts.survivors < 2 ^ 17 }
    requires rounds_bound { counts.rounds < 2 ^ 17 }
    ensures { result ≡ packed_parts true element counts.survivors counts.rounds }
{
    256 + 512 * (element as u64) + pack_counts(counts)
}

// The library's version; judge.h says what each number counts. It is no export yet: docs/PORT.md says why.
const MAJOR: usize = 1;

const MINOR: usize = 5;

const PATCH: usize = 1;

// Bits 8 to 15: the patch number. Bits 16 to 23: the minor. Bits 24 to 31: the major.
pub fn judge_version() -> u64
    ensures { result ≡ packed (accepted version) }
{
    pack(0, 65536 * MAJOR + 256 * MINOR + PATCH)
}

#[unsafe(no_mangle)]
pub extern "C" fn judge_check_vocabulary(vocabulary: &[u8]) -> u64
    ensures value { result ≡ packed (vocabulary_check vocabulary.now) }
    ensures vocabulary_value { vocabulary.exit.now ≡ vocabulary.entry.now }
{
    pack_answer(demands::check_vocabulary(vocabulary))
}

#[unsafe(no_mangle)]
pub extern "C" fn judge_record(vocabulary: &[u8], number: u32) -> u64
    ensures value { result ≡ packed (record_call vocabulary.now number) }
    ensures vocabulary_value { vocabulary.exit.now ≡ vocabulary.entry.now }
{
    pack_answer(demands::find_record(vocabulary, number))
}

#[unsafe(no_mangle)]
pub extern "C" fn judge_compare(vocabulary: &[u8], a: u32, b: u32, buffer: &mut [u8]) -> u64
    ensures value { result ≡ packed_verdict (comparison vocabulary.now a b (length buffer.old)) }
    ensures buffer_after { buffer.new
        ≡ written (comparison vocabulary.now a b (length buffer.old))
        vocabulary.now buffer.old }
    ensures vocabulary_value { vocabulary.exit.now ≡ vocabulary.entry.now }
{
    match demands::compare(vocabulary, a, b, buffer) {
        Ok(Compared::Equal(counts)) => pack_counts(counts),
        Ok(Compared::Different { element, counts }) => pack_different(element, counts),
        Err(refusal) => pack_refusal(refusal),
    }
}

#[unsafe(no_mangle)]
pub extern "C" fn judge_classify(
    vocabulary: &[u8],
    survivors: &mut [u8],
    taxonomy: &mut [u8],
) -> u64
    ensures value { result ≡ packed_counts
        (classification vocabulary.now (length survivors.old) (length taxonomy.old)) }
    ensures survivors_after { survivors.new
        ≡ first_after vocabulary.now survivors.old taxonomy.old }
    ensures taxonomy_after { taxonomy.new
        ≡ second_after vocabulary.now survivors.old taxonomy.old }
    ensures vocabulary_value { vocabulary.exit.now ≡ vocabulary.entry.now }
{
    match demands::classify(vocabulary, survivors, taxonomy) {
        Ok(counts) => pack_counts(counts),
        Err(refused) => pack_refusal(refused),
    }
}

#[unsafe(no_mangle)]
pub extern "C" fn judge_check_script(vocabulary: &[u8], script: &[u8]) -> u64
    ensures value { result ≡ packed (script_check vocabulary.now script.now) }
    ensures vocabulary_value { vocabulary.exit.now ≡ vocabulary.entry.now }
    ensures script_value { script.exit.now ≡ script.entry.now }
{
    pack_answer(demands::check_script(vocabulary, script))
}

#[unsafe(no_mangle)]
pub extern "C" fn judge_make_vocabulary(buffer: &mut [u8], roles: u32) -> u64
    ensures value { result ≡ packed (new_length (making (length buffer.old) roles)) }
    ensures buffer_after { buffer.new ≡ buffer_after (making (length buffer.old) roles) buffer.old }
{
    pack_answer(demands::make_vocabulary(buffer, roles))
}

#[unsafe(no_mangle)]
pub extern "C" fn judge_add_term(buffer: &mut [u8], used: usize, kind: u8, a: u16, b: u16) -> u64
    ensures value { result ≡ packed (new_length (adding buffer.old used (term kind a b))) }
    ensures buffer_after { buffer.new
        ≡ buffer_after (adding buffer.old used (term kind a b)) buffer.old }
{
    pack_answer(demands::add_term(buffer, used, kind, a, b))
}

#[unsafe(no_mangle)]
pub extern "C" fn judge_add_statement(buffer: &mut [u8], used: usize, a: u16, b: u16) -> u64
    ensures value { result ≡ packed (new_length (adding buffer.old used (statement a b))) }
    ensures buffer_after { buffer.new
        ≡ buffer_after (adding buffer.old used (statement a b)) buffer.old }
{
    pack_answer(demands::add_statement(buffer, used, a, b))
}
