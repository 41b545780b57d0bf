// The columns of a record, as the paper lists them: the kind selects the group, a number the column.
ghost use Rattle.std.specs.Prelude.{◌≡◌, [], ℕ, get_or};
ghost use Rattle.records.specs.Kinds.{construct_of, negation, inclusion};
ghost use Rattle.columns.specs.Columns.{columns_of};
ghost use Rattle.columns.specs.Code.Packed.{constant_group, junction_group, restriction_group};
ghost use Rattle.columns.specs.Code.Kept.{packed_by, literals, HasShape};

use crate::column::{Column, Shape, Terms};
use crate::literal::{pack_concept, pack_role};
use records::fields::Record;
use records::kinds::Kind;

// Top and bottom. (What the functions of this file are given they hand on as it is: a struct would be opened in each.)
fn constant_column(sign: bool, i: u16, n: u16, at: Terms) -> Column
    ensures { literals result ≡ packed_by at (get_or (constant_group sign i) n []) }
{
    match n {
        0 => Column::One(pack_concept(sign, i, at.x)),
        _ => Column::Empty,
    }
}

fn negation_column(i: u16, j: u16, n: u16, at: Terms) -> Column
    ensures { literals result ≡ packed_by at (get_or (columns_of i (negation j)) n []) }
{
    match n {
        0 => Column::Two(pack_concept(true, i, at.x), pack_concept(true, j, at.x)),
        1 => Column::Two(pack_concept(false, i, at.x), pack_concept(false, j, at.x)),
        _ => Column::Empty,
    }
}

// And, or.
fn junction_column(sign: bool, i: u16, j: u16, k: u16, n: u16, at: Terms) -> Column
    ensures { literals result ≡ packed_by at (get_or (junction_group sign i j k) n []) }
{
    match n {
        0 => Column::Two(pack_concept(sign, i, at.x), pack_concept(!sign, j, at.x)),
        1 => Column::Two(pack_concept(sign, i, at.x), pack_concept(!sign, k, at.x)),
        2 => Column::Three(
            pack_concept(!sign, i, at.x),
            pack_concept(sign, j, at.x),
            pack_concept(sign, k, at.x),
        ),
        _ => Column::Empty,
    }
}

// Some, all.
fn restriction_column(sign: bool, i: u16, r: u16, j: u16, n: u16, at: Terms) -> Column
    ensures { literals result ≡ packed_by at (get_or (restriction_group sign i r j) n []) }
{
    match n {
        0 => Column::Two(
            pack_concept(sign, i, at.x),
            pack_role(false, r, at.x, at.fx),
        ),
        1 => Column::Two(pack_concept(sign, i, at.x), pack_concept(!sign, j, at.fx)),
        2 => Column::Three(
            pack_concept(!sign, i, at.x),
            pack_role(true, r, at.x, at.y),
            pack_concept(sign, j, at.y),
        ),
        _ => Column::Empty,
    }
}

fn inclusion_column(j: u16, k: u16, n: u16, at: Terms) -> Column
    ensures { literals result ≡ packed_by at (get_or (columns_of 0 (inclusion j k)) n []) }
{
    match n {
        0 => Column::Two(pack_concept(true, j, at.x), pack_concept(false, k, at.x)),
        _ => Column::Empty,
    }
}

// Column n of record i: its kind selects the group.
pub fn group_column(fields: Record, i: u16, n: u16, at: Terms) -> Column
    ensures { literals result ≡ packed_by at (get_or (columns_of i (construct_of fields)) n []) }
{
    let Some(kind) = Kind::of(fields.kind) else {
        return Column::Empty;
    };
    let Record { a, b, .. } = fields;
    match kind {
        Kind::Top => constant_column(false, i, n, at),
        Kind::Bottom => constant_column(true, i, n, at),
        Kind::Name => Column::Empty,
        Kind::Negation => negation_column(i, a, n, at),
        Kind::Conjunction => junction_column(true, i, a, b, n, at),
        Kind::Disjunction => junction_column(false, i, a, b, n, at),
        Kind::Existential => restriction_column(true, i, a, b, n, at),
        Kind::Universal => restriction_column(false, i, a, b, n, at),
        Kind::Inclusion => inclusion_column(a, b, n, at),
    }
}

// The shape of column n of a record of this kind.
pub fn group_shape(fields: Record, n: u16) -> Shape
    ensures { (i : ℕ) → HasShape result (get_or (columns_of i (construct_of fields)) n []) }
{
    let Some(kind) = Kind::of(fields.kind) else {
        return Shape::NONE;
    };
    match kind {
        Kind::Top | Kind::Bottom => Shape::without_y(&[1], n),
        Kind::Name => Shape::NONE,
        Kind::Negation => Shape::without_y(&[2, 2], n),
        Kind::Conjunction | Kind::Disjunction => Shape::without_y(&[2, 2, 3], n),
        Kind::Existential | Kind::Universal => Shape {
            y: n == 2,
            ..Shape::without_y(&[2, 2, 3], n)
        },
        Kind::Inclusion => Shape::without_y(&[2], n),
    }
}
