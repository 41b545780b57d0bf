// The kinds of records: which are terms, atoms, names, restrictions and statements, and what a field may hold.
ghost use Rattle.std.specs.Prelude.{◌≡◌};
ghost use Rattle.records.specs.Kinds.{kind_of, sorts_of, is_term, is_atom, is_name, is_restriction, is_statement};
ghost use Rattle.records.specs.Code.Kinds.{number_of_kind, kind_numbered};
ghost use Rattle.records.specs.Check.{row};
ghost use Rattle.records.specs.Refusals.{number_of};

use crate::fields::Record;
use crate::refusals::Row;

#[derive(Clone, Copy, Debug, PartialEq, Eq)]
pub enum Kind {
    Top = 1,
    Bottom,
    Name,
    Negation,
    Conjunction,
    Disjunction,
    Existential,
    Universal,
    Inclusion,
}

// What the records of a kind are: terms by top, bottom, not, and, or; names; restrictions (a role to a term); statements; or none
// of these.
#[derive(Clone, Copy, Debug, PartialEq, Eq)]
pub enum Class {
    Silent,
    Connective,
    Name,
    Restriction,
    Statement,
}

// What a field holds: nothing, a term number, a role number, a name's label, or the number of the chain's next statement.
#[derive(Clone, Copy, Debug, PartialEq, Eq)]
pub enum Sort {
    Spare,
    Term,
    Role,
    Label,
    Link,
}

// What A, B and next hold.
#[derive(Clone, Copy, Debug, PartialEq, Eq)]
pub struct Sorts {
    pub a: Sort,
    pub b: Sort,
    pub next: Sort,
}

impl Sort {
    // The row that speaks of fields of this sort.
    pub fn row(self) -> Row
        ensures { number_of result ≡ row self }
    {
        match self {
            Sort::Spare => Row::Unused,
            Sort::Term => Row::Operand,
            Sort::Role => Row::Role,
            Sort::Label => Row::Label,
            Sort::Link => Row::Link,
        }
    }
}

impl Kind {
    // The kind that has this number, if one does. (No TryFrom: of a number of no kind there is no more to say.)
    pub fn of(number: u8) -> Option<Kind>
        ensures { result ≡ kind_numbered number }
    {
        match number {
            1 => Some(Kind::Top),
            2 => Some(Kind::Bottom),
            3 => Some(Kind::Name),
            4 => Some(Kind::Negation),
            5 => Some(Kind::Conjunction),
            6 => Some(Kind::Disjunction),
            7 => Some(Kind::Existential),
            8 => Some(Kind::Universal),
            9 => Some(Kind::Inclusion),
            _ => None,
        }
    }

    // What the fields of a record of this kind hold.
    pub fn sorts(self) -> Sorts
        ensures { result ≡ sorts_of (number_of_kind self) }
    {
        let (a, b, next) = match self {
            Kind::Top | Kind::Bottom => (Sort::Spare, Sort::Spare, Sort::Spare),
            Kind::Name => (Sort::Label, Sort::Spare, Sort::Spare),
            Kind::Negation => (Sort::Term, Sort::Spare, Sort::Spare),
            Kind::Conjunction | Kind::Disjunction => (Sort::Term, Sort::Term, Sort::Spare),
            Kind::Existential | Kind::Universal => (Sort::Role, Sort::Term, Sort::Spare),
            Kind::Inclusion => (Sort::Term, Sort::Term, Sort::Link),
        };
        Sorts { a, b, next }
    }

    // What records of this kind are.
    pub fn class(self) -> Class
        ensures { result ≡ (kind_of (number_of_kind self)).class }
    {
        match self {
            Kind::Top | Kind::Bottom => Class::Connective,
            Kind::Name => Class::Name,
            Kind::Negation | Kind::Conjunction | Kind::Disjunction => Class::Connective,
            Kind::Existential | Kind::Universal => Class::Restriction,
            Kind::Inclusion => Class::Statement,
        }
    }
}

impl Record {
    // What the fields of a record of its kind hold; nothing, where its kind is none.
    pub fn sorts(self) -> Sorts
        ensures { result ≡ sorts_of self.kind }
    {
        match Kind::of(self.kind) {
            Some(kind) => kind.sorts(),
            None => Sorts {
                a: Sort::Spare,
                b: Sort::Spare,
                next: Sort::Spare,
            },
        }
    }

    // What the record is; `Silent` where its kind is none.
    fn class(self) -> Class
        ensures { result ≡ (kind_of self.kind).class }
    {
        match Kind::of(self.kind) {
            Some(kind) => kind.class(),
            None => Class::Silent,
        }
    }

    pub fn is_term(self) -> bool
        ensures { result ≡ is_term self.kind }
    {
        matches!(
            self.class(),
            Class::Connective | Class::Name | Class::Restriction
        )
    }

    pub fn is_atom(self) -> bool
        ensures { result ≡ is_atom self.kind }
    {
        self.is_name() || self.is_restriction()
    }

    pub fn is_name(self) -> bool
        ensures { result ≡ is_name self.kind }
    {
        matches!(self.class(), Class::Name)
    }

    pub fn is_restriction(self) -> bool
        ensures { result ≡ is_restriction self.kind }
    {
        matches!(self.class(), Class::Restriction)
    }

    pub fn is_statement(self) -> bool
        ensures { result ≡ is_statement self.kind }
    {
        matches!(self.class(), Class::Statement)
    }
}
