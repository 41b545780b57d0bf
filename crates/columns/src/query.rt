// What is asked, whether term a lies within term b, and its columns.
use crate::column::Column;
use crate::literal::pack_concept;

#[derive(Clone, Copy)]
pub struct Query {
    pub a: u16,
    pub b: u16,
}

impl Query {
    ghost use Rattle.std.specs.Prelude.{◌≡◌, [], ℕ, get_or};
    ghost use Rattle.columns.specs.Columns.{query_columns};
    ghost use Rattle.columns.specs.Code.Packed.{packed_at};
    ghost use Rattle.columns.specs.Code.Kept.{literals};

    // Column n of the query "a within b": it speaks of the constant, whatever x and y are.
    pub fn column(self, n: u16) -> Column
        ensures { (nx ny nf : ℕ) → literals result ≡ packed_at nx ny nf (get_or (query_columns self) n []) }
    {
        match n {
            0 => Column::One(pack_concept(false, self.a, 0)),
            1 => Column::One(pack_concept(true, self.b, 0)),
            _ => Column::Empty,
        }
    }
}
