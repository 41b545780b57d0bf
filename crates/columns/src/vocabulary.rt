// The columns of an owner, by the number that a script's step has: 0 is the query, others are records of the vocabulary.
ghost use Rattle.std.specs.Prelude.{◌≡◌, false, ℕ, List, get_or};
ghost use Rattle.records.specs.Check.{IsAccepted};
ghost use Rattle.records.specs.Format.{record_at};
ghost use Rattle.records.specs.Chain.{in_force};
ghost use Rattle.columns.specs.Columns.{states};

use crate::column::{Column, Shape, Terms};
use crate::group::{group_column, group_shape};
use crate::query::Query;
use records::fields::Record;
use records::layout::Layout;

// An accepted vocabulary, with its statements in force marked.
#[derive(Clone, Copy)]
pub struct Vocabulary<'a> {
    pub bytes: &'a [u8],
    pub marks: &'a [bool; Record::LIMIT],
    pub ghost accepted: { IsAccepted bytes.now },
    pub ghost marked: { (i : ℕ) → get_or marks.now i false ≡ in_force bytes.now i },
}

// Whether a record states anything: a statement does so where it is in force, which is marked.
fn states(fields: Record, marked: bool) -> bool
    ensures { (v : List ℕ) (i : ℕ) → fields ≡ record_at v i → marked ≡ in_force v i → result ≡ states v i }
{
    !fields.is_statement() || marked
}

impl Vocabulary<'_> {
    ghost use Rattle.columns.specs.Columns.{Query, columns_at, column_at};
    ghost use Rattle.columns.specs.Code.Kept.{HasShape, packed_by, literals, columns_given};

    // The record whose columns an owner has: none where there is no such record, or where it states nothing.
    fn owner_record(&self, owner: u16) -> Option<Record>
        ensures { (q : Query) → (owner ≡ 0 → ⊥) → columns_at self.now.bytes.now q owner ≡ columns_given owner result }
    {
        let i = usize::from(owner);
        if i >= self.bytes.len() / Record::SIZE {
            return None;
        }
        let record = Record::read_at(self.bytes, i);
        states(record, self.marks[i]).then_some(record)
    }

    // Column n of an owner; one that it does not have has no literals.
    pub fn find_column(&self, query: Query, owner: u16, n: u16, at: Terms) -> Column
        ensures { literals result ≡ packed_by at (column_at self.now.bytes.now query owner n) }
    {
        if owner == 0 {
            return query.column(n);
        }
        match self.owner_record(owner) {
            Some(record) => group_column(record, owner, n, at),
            None => Column::Empty,
        }
    }

    // The shape of column n of an owner, whatever the query's terms are; nothing stands in one that it does not have.
    pub fn column_shape(&self, owner: u16, n: u16) -> Shape
        ensures { (q : Query) → HasShape result (column_at self.now.bytes.now q owner n) }
    {
        if owner == 0 {
            return Shape::without_y(&[1, 1], n);
        }
        match self.owner_record(owner) {
            Some(record) => group_shape(record, n),
            None => Shape::NONE,
        }
    }
}
