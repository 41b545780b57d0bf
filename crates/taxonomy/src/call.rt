// The classification: rows 1 to 8, 11, 12 and 26 of the table of refusals, type elimination, and the table of nearest names.
ghost use Rattle.std.specs.Prelude.{◌≡◌, ◌++◌, ◌≤◌, length, drop};
ghost use Rattle.records.specs.Outcome.{◌then◌};
ghost use Rattle.records.specs.Refusals.{answered};
ghost use Rattle.types.specs.Comparison.{bitmap_bytes, size_check, counts};
ghost use Rattle.types.specs.Bitmap.{bitmap};
ghost use Rattle.taxonomy.specs.Taxonomy.{taxonomy_bytes, taxonomy, table_check, classification, first_after, second_after};

use crate::meets::find_broader;
use crate::names::Names;
use crate::table::Order;
use records::atoms::count_atoms;
use records::refusals::{Refusal, Row, require};
use types::answers::Counts;
use types::{SmallVocabulary, TypeData, check_size, settle_types};

// Rows 11, 12 and 26, where the vocabulary has k atoms.
fn check_sizes(k: usize, lent: usize, room: usize) -> Result<(), Refusal>
    ensures { answered result ≡ (size_check k lent then table_check room) }
{
    check_size(k, lent)?;
    require(Names::TABLE_BYTES <= room, Row::TaxonomyRoom, 0)
}

// The counts; both buffers are written.
fn tabulate(v: &SmallVocabulary, lent: &mut [u8], room: &mut [u8]) -> Counts
    requires bitmap_bytes_in_bounds { bitmap_bytes ≤ length lent.old }
    requires taxonomy_bytes_in_bounds { taxonomy_bytes ≤ length room.old }
    ensures result_value { result ≡ counts v.now.bytes.now }
    ensures lent_after { lent.new ≡ bitmap v.now.bytes.now ++ drop bitmap_bytes lent.old }
    ensures room_after { room.new ≡ taxonomy v.now.bytes.now ++ drop taxonomy_bytes room.old }
{
    let mut alive = [false; TypeData::TYPES];
    let counts = settle_types(v.bytes, v.k, &mut alive, lent);
    let names = Names::of(v);
    let meets = find_broader(v, names, &alive);
    Order { names, meets }.write(room);
    counts
}

// The survivors and the taxonomy of a vocabulary, or the first refusal in table order, which writes nothing.
pub fn classify(v: &[u8], lent: &mut [u8], room: &mut [u8]) -> Result<Counts, Refusal>
    ensures result_value { answered result
        ≡ classification v.now (length lent.old) (length room.old) }
    ensures lent_after { lent.new ≡ first_after v.now lent.old room.old }
    ensures room_after { room.new ≡ second_after v.now lent.old room.old }
{
    records::check_vocabulary(v)?;
    let k = count_atoms(v);
    check_sizes(k, lent.len(), room.len())?;
    let v = SmallVocabulary { bytes: v, k };
    Ok(tabulate(&v, lent, room))
}
