// The library's calls: those of the crates below, with the demands and the promises as their contracts. Each says that the
// answer is the definition's, what that tells a caller (specs/Returns.antt), and what the lent bytes are after the call. Only
// the comparison, the classification and the writer are lent bytes that they may write. That a call ends on every input is part
// of what the prover checks of every function.
#![tactic(auto)]

ghost use Rattle.std.specs.Prelude.{◌≡◌, length};
ghost use Rattle.records.specs.Check.{vocabulary_check};
ghost use Rattle.records.specs.Call.{record_call, record_part, record_place};
ghost use Rattle.writer.specs.Additions.{term, statement};
ghost use Rattle.writer.specs.Calls.{making, adding, new_length, buffer_after};
ghost use Rattle.types.specs.Answers.{compared};
ghost use Rattle.types.specs.Comparison.{comparison};
ghost use Rattle.types.specs.Bitmap.{written};
ghost use Rattle.taxonomy.specs.Taxonomy.{classification, first_after, second_after};
ghost use Rattle.scripts.specs.Run.{script_check};
ghost use Rattle.demands.specs.Returns.{VocabularyReturns, OffsetReturns, RecordReturns, ComparisonReturns};
ghost use Rattle.demands.specs.Returns.{ClassificationReturns, ScriptReturns, MakingReturns, AdditionReturns};
ghost use Rattle.demands.specs.Demands.{Demand1, Demand2, Demand3};
ghost use Rattle.demands.specs.Promises.{ChainsEnd, WritesSurvivors, NearestNames, WritesVocabularies};
ghost use Rattle.demands.specs.Promises.{EditionsAgree, EditionsConvert};
ghost use Rattle.demands.specs.Limits.{Limits};
ghost use Rattle.demands.specs.Samples.{Samples};
ghost use Rattle.records.specs.Refusals.{answered};

use records::refusals::Refusal;
use types::answers::{Compared, Counts};

// Every demand, every promise and the samples, as one contract. It does nothing: it is here so that no statement, and no proof of
// one, can be taken away unseen (tests/statements.sh). A later promise joins it.
pub fn hold()
    ensures demand1 { Demand1 }
    ensures demand2 { Demand2 }
    ensures demand3 { Demand3 }
    ensures chains_end { ChainsEnd }
    ensures writes_survivors { WritesSurvivors }
    ensures nearest_names { NearestNames }
    ensures writes_vocabularies { WritesVocabularies }
    ensures editions_agree { EditionsAgree }
    ensures editions_convert { EditionsConvert }
    ensures limits { Limits }
    ensures samples { Samples }
{}

// The vocabulary check.
pub fn check_vocabulary(v: &[u8]) -> Result<usize, Refusal>
    ensures result_value { answered result ≡ vocabulary_check v.now }
    ensures vocabulary_returns { VocabularyReturns v.now result }
    ensures v_value { v.exit.now ≡ v.entry.now }
{
    records::check_vocabulary(v)
}

// Where the record call finds a record, or its refusal.
pub fn find_record(v: &[u8], number: u32) -> Result<usize, Refusal>
    ensures result_value { answered result ≡ record_call v.now number }
    ensures offset_returns { OffsetReturns v.now number result }
    ensures v_value { v.exit.now ≡ v.entry.now }
{
    records::find_record(v, number)
}

// The record call: a part of the lent vocabulary.
pub fn record(v: &[u8], number: u32) -> &[u8]
    ensures result_value { result.now ≡ record_part v.now number }
    ensures ref_ptr_value { result.ref_ptr ≡ record_place v.now number v.entry.ref_ptr }
    ensures record_returns { RecordReturns v.now number result.now }
    ensures v_value { v.exit.now ≡ v.entry.now }
{
    records::record(v, number)
}

// The comparison of the terms a and b.
pub fn compare(v: &[u8], a: u32, b: u32, lent: &mut [u8]) -> Result<Compared, Refusal>
    ensures result_value { compared result ≡ comparison v.now a b (length lent.old) }
    ensures lent_after { lent.new
        ≡ written (comparison v.now a b (length lent.old)) v.now lent.old }
    ensures comparison_returns { ComparisonReturns v.now a b lent.old lent.new result }
    ensures v_value { v.exit.now ≡ v.entry.now }
{
    types::compare(v, a, b, lent)
}

// The classification of the names.
pub fn classify(v: &[u8], lent: &mut [u8], room: &mut [u8]) -> Result<Counts, Refusal>
    ensures result_value { answered result
        ≡ classification v.now (length lent.old) (length room.old) }
    ensures lent_after { lent.new ≡ first_after v.now lent.old room.old }
    ensures room_after { room.new ≡ second_after v.now lent.old room.old }
    ensures classification_returns { ClassificationReturns v.now lent.old lent.new room.old
        room.new result }
    ensures v_value { v.exit.now ≡ v.entry.now }
{
    taxonomy::classify(v, lent, room)
}

// The script check.
pub fn check_script(v: &[u8], s: &[u8]) -> Result<usize, Refusal>
    ensures result_value { answered result ≡ script_check v.now s.now }
    ensures script_returns { ScriptReturns v.now s.now result }
    ensures v_value { v.exit.now ≡ v.entry.now }
    ensures s_value { s.exit.now ≡ s.entry.now }
{
    scripts::check_script(v, s)
}

// An empty vocabulary in a lent buffer.
pub fn make_vocabulary(buffer: &mut [u8], roles: u32) -> Result<usize, Refusal>
    ensures result_value { answered result ≡ new_length (making (length buffer.old) roles) }
    ensures buffer_after { buffer.new ≡ buffer_after (making (length buffer.old) roles) buffer.old }
    ensures making_returns { MakingReturns buffer.old roles buffer.new result }
{
    writer::make_vocabulary(buffer, roles)
}

// A term behind the bytes in use. (The kind is a number, since C may give any.)
pub fn add_term(buffer: &mut [u8], used: usize, kind: u8, a: u16, b: u16) -> Result<usize, Refusal>
    ensures result_value { answered result ≡ new_length (adding buffer.old used (term kind a b)) }
    ensures buffer_after { buffer.new
        ≡ buffer_after (adding buffer.old used (term kind a b)) buffer.old }
    ensures addition_returns { AdditionReturns buffer.old used (term kind a b) buffer.new result }
{
    writer::add_term(buffer, used, kind, a, b)
}

// A statement behind the bytes in use, at the end of their chain.
pub fn add_statement(buffer: &mut [u8], used: usize, a: u16, b: u16) -> Result<usize, Refusal>
    ensures result_value { answered result ≡ new_length (adding buffer.old used (statement a b)) }
    ensures buffer_after { buffer.new
        ≡ buffer_after (adding buffer.old used (statement a b)) buffer.old }
    ensures addition_returns { AdditionReturns buffer.old used (statement a b) buffer.new result }
{
    writer::add_statement(buffer, used, a, b)
}
