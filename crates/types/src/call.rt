// The comparison: rows 1 to 8, 10, 11 and 12 of the table of refusals, type elimination, and the answer.
ghost use Rattle.std.specs.Prelude.{◌≡◌, ◌&&◌, ◌++◌, ◌≤◌, length, drop, ltb};
ghost use Rattle.records.specs.Refusals.{answered};
ghost use Rattle.records.specs.Format.{record_at, count};
ghost use Rattle.records.specs.Kinds.{is_term};
ghost use Rattle.records.specs.Atoms.{atoms};
ghost use Rattle.types.specs.Comparison.{term_check, size_check, query_check, verdict, comparison, bitmap_bytes};
ghost use Rattle.types.specs.Bitmap.{bitmap, written};
ghost use Rattle.types.specs.Answers.{verdict_of, compared};

use crate::answers::{Compared, conclude};
use crate::bitmap::find_first;
use crate::type_data::TypeData;
use crate::vocabulary::{Query, SmallVocabulary};
use records::atoms::count_atoms;
use records::fields::Record;
use records::layout::Layout;
use records::refusals::{Refusal, Row, require};

// Row 10: whether a number of the query names a term.
fn names_term(v: &[u8], number: usize) -> bool
    ensures { result ≡ (ltb number (count v.now) && is_term (record_at v.now number).kind) }
{
    number < v.len() / Record::SIZE && Record::read_at(v, number).is_term()
}

pub fn check_term(v: &[u8], number: usize) -> Result<(), Refusal>
    ensures { answered result ≡ term_check v.now number }
{
    require(names_term(v, number), Row::QueryTerm, number)
}

// Rows 11 and 12, where the vocabulary has k atoms.
pub fn check_size(k: usize, lent: usize) -> Result<(), Refusal>
    ensures { answered result ≡ size_check k lent }
{
    require(k <= TypeData::ATOMS, Row::AtomLimit, k)?;
    require(TypeData::BYTES <= lent, Row::SurvivorRoom, 0)
}

// Row 10 for both terms, then rows 11 and 12, where the vocabulary has k atoms.
fn check_query(v: &[u8], a: usize, b: usize, k: usize, lent: usize) -> Result<(), Refusal>
    requires { k ≡ atoms v.now }
    ensures { answered result ≡ query_check v.now a b lent }
{
    check_term(v, a)?;
    check_term(v, b)?;
    check_size(k, lent)
}

impl Query<'_> {
    // Its verdict; the survivors are written.
    fn decide(&self, lent: &mut [u8]) -> Compared
        requires bitmap_bytes_in_bounds { bitmap_bytes ≤ length lent.old }
        ensures result_value { verdict_of result ≡ verdict self.now.v.bytes.now self.now.a self.now.b }
        ensures lent_after { lent.new ≡ bitmap self.now.v.bytes.now ++ drop bitmap_bytes lent.old }
    {
        let mut alive = [false; TypeData::TYPES];
        let mut differs = [false; TypeData::TYPES];
        let counts = self.settle_query(&mut alive, &mut differs, lent);
        conclude(find_first(&alive, &differs, self.v.type_count()), counts)
    }
}

// The comparison of the terms a and b: Equal, or Different with the smallest survivor at which they differ, or the first
// refusal in table order, which writes nothing.
#[tactic(auto, unfolding(crate::specs::Comparison::comparison))]
pub fn compare(v: &[u8], a: u32, b: u32, lent: &mut [u8]) -> Result<Compared, Refusal>
    ensures result_value { compared result ≡ comparison v.now a b (length lent.old) }
    ensures lent_after { lent.new
        ≡ written (comparison v.now a b (length lent.old)) v.now lent.old }
{
    records::check_vocabulary(v)?;
    let a = a as usize;
    let b = b as usize;
    let k = count_atoms(v);
    check_query(v, a, b, k, lent.len())?;
    let v = SmallVocabulary { bytes: v, k };
    let query = Query { v, a, b };
    Ok(query.decide(lent))
}
