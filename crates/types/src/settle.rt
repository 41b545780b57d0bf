// The comparison up to its answer: which types survive and how many, at which of them the two terms differ, and after how many
// rounds. The survivors are written here, for other calls too.
ghost use Rattle.std.specs.Prelude.{◌≡◌, ◌++◌, ◌≤◌, length, drop};
ghost use Rattle.types.specs.Survivors.{survivors};
ghost use Rattle.types.specs.Comparison.{bitmap_bytes, counts};
ghost use Rattle.types.specs.Bitmap.{bitmap};
ghost use Rattle.types.specs.Code.Words.{SameSet};
ghost use Rattle.types.specs.Code.Settling.{Settleable, Empty, Settled};

use crate::answers::Counts;
use crate::bitmap::write_bitmap;
use crate::decode::Rule;
use crate::restrict::Restriction;
use crate::type_data::{Plan, TypeData};
use crate::vocabulary::{Query, SmallVocabulary};
use records::fields::Record;
use records::layout::Layout;

impl Query<'_> {
    // Settles it in empty tables; how many types survive, and how many rounds removed something. (The tables are lent: the caller
    // reads them after.)
    fn settle(
        &self,
        alive: &mut [bool; TypeData::TYPES],
        differs: &mut [bool; TypeData::TYPES],
    ) -> Counts
        requires empty { Empty alive.old }
        ensures value { result ≡ counts self.now.v.bytes.now }
        ensures settled { Settled self.now.v.bytes.now self.now.a self.now.b alive.new differs.new }
    {
        let mut code = [Rule::default(); Record::LIMIT];
        let mut statements = [0; Record::LIMIT];
        let mut restrictions = [Restriction::default(); TypeData::ATOMS];
        let mut held = [0; TypeData::TYPES];
        let mut filling = [0; TypeData::TYPES];
        self.v.decode(&mut code);
        let places = self.v.list_atoms();
        let found = self.v.list_statements(&mut statements);
        let bits = self.v.list_restrictions(&mut restrictions);
        let plan = Plan {
            v: self.v.bytes,
            a: self.a,
            b: self.b,
            code: &code[..self.v.bytes.len() / Record::SIZE],
            atoms: &places[..self.v.k],
            statements: &statements[..found],
            restrictions: &restrictions[..bits],
        };
        plan.describe_types(alive, differs, &mut held, &mut filling);
        plan.eliminate(&held, &filling, alive)
    }

    // The same; the survivors are written too.
    pub fn settle_query(
        &self,
        alive: &mut [bool; TypeData::TYPES],
        differs: &mut [bool; TypeData::TYPES],
        lent: &mut [u8],
    ) -> Counts
        requires empty { Empty alive.old }
        requires bitmap_bytes_in_bounds { bitmap_bytes ≤ length lent.old }
        ensures value { result ≡ counts self.now.v.bytes.now }
        ensures settled { Settled self.now.v.bytes.now self.now.a self.now.b alive.new differs.new }
        ensures lent_after { lent.new ≡ bitmap self.now.v.bytes.now ++ drop bitmap_bytes lent.old }
    {
        let settled = self.settle(alive, differs);
        write_bitmap(alive, self.v.type_count(), lent);
        settled
    }
}

// The same with no query: the header, which differs from itself at no type, stands for both terms.
pub fn settle_types(
    v: &[u8],
    k: usize,
    alive: &mut [bool; TypeData::TYPES],
    lent: &mut [u8],
) -> Counts
    requires settleable { Settleable v.now k }
    requires empty { Empty alive.old }
    requires bitmap_bytes_in_bounds { bitmap_bytes ≤ length lent.old }
    ensures value { result ≡ counts v.now }
    ensures same_set { SameSet alive.new (survivors v.now) }
    ensures lent_after { lent.new ≡ bitmap v.now ++ drop bitmap_bytes lent.old }
{
    let mut differs = [false; TypeData::TYPES];
    let v = SmallVocabulary { bytes: v, k };
    let header = Query { v, a: 0, b: 0 };
    header.settle_query(alive, &mut differs, lent)
}
