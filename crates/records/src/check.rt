// The vocabulary check: rows 1 to 8 and 28 of the table of refusals, each a check of its own.
ghost use Rattle.std.specs.Prelude.{◌≡◌, ◌+◌, ◌*◌, ◌-◌, ◌≤◌, min, cond, length, IfOk};
ghost use Rattle.records.specs.Outcome.{◌then◌, pass, in_turn};
ghost use Rattle.records.specs.Refusals.{answered};
ghost use Rattle.records.specs.Format.{record_size, record_at, role_count, count};
ghost use Rattle.records.specs.Kinds.{sorts_of};
ghost use Rattle.records.specs.Check.{length_check, header_fits, header_check, kind_check, named, labelled, term_fits, row};
ghost use Rattle.records.specs.Check.{rows_check, fields_check, record_check, links_check, records_check, held_check};
ghost use Rattle.records.specs.Check.{vocabulary_rows, vocabulary_check};
ghost use Rattle.records.specs.Code.Fields.{field_fits, all_fit, no_fault, number_or_none, first_of, record_fits, AtRecord};
ghost use Rattle.records.specs.Code.Kinds.{number_of_kind};

use crate::atoms::count_atoms;
use crate::fields::Record;
use crate::kinds::{Kind, Sort, Sorts};
use crate::layout::{self, Layout, length_fits};
use crate::refusals::{Refusal, Row, require};

// Row 1: the length.
pub fn check_length(v: &[u8]) -> Result<(), Refusal>
    ensures { answered result ≡ length_check v.now }
{
    require(length_fits::<Record>(v), Row::Length, 0)
}

// Row 2: the header. Edition 2 holds any number in next, until row 28. (The edition stays a number: this row tests it.)
fn header_fits(header: Record) -> bool
    ensures { result ≡ header_fits header }
{
    header.kind == Record::HEADER
        && header.b <= Record::ROLES
        && (header.second == 2 || (header.second == 1 && header.next == 0))
}

// (Of the four that ask for a header: a type would say no more, and be opened in each.)
fn check_header(v: &[u8]) -> Result<(), Refusal>
    requires { record_size ≤ length v.now }
    ensures { answered result ≡ header_check v.now }
{
    require(header_fits(Record::read_at(v, 0)), Row::Header, 0)
}

// Row 3: the kind, which is read here, and the second byte.
fn check_kind(f: Record, i: usize) -> Result<Kind, Refusal>
    ensures row { (answered result then pass) ≡ kind_check f i }
    ensures kind { IfOk result (λ kind. number_of_kind kind ≡ f.kind) }
{
    match Kind::of(f.kind) {
        Some(kind) if f.second == 0 => Ok(kind),
        _ => Err(Refusal {
            row: Row::Kind,
            place: i,
        }),
    }
}

// A record's kind and A in one number, so that one comparison tells of both. (With two, 511 names take three times the
// instructions: one and a half times plain C's, where this takes half of them.)
fn key_of(kind: u8, a: u16) -> u32
    ensures { result ≡ kind + 65536 * a }
{
    u32::from(kind) + 65536 * u32::from(a)
}

// Whether record j is of this kind and has this label.
fn is_named(v: &[u8], kind: Kind, label: u16, j: usize) -> bool
    requires { record_size * j + record_size ≤ length v.now }
    ensures { result ≡ named v.now (number_of_kind kind) label j }
{
    let fields = Record::read_at(v, j);
    key_of(fields.kind, fields.a) == key_of(kind as u8, label)
}

// The row that refuses a field, unless it fits.
fn fault(fits: bool, sort: Sort) -> Option<Row>
    ensures { number_or_none result ≡ cond fits no_fault (row sort) }
{
    if fits { None } else { Some(sort.row()) }
}

// (By hand: an Option's own order has None first, and here none comes last.)
fn earlier(x: Option<Row>, y: Option<Row>) -> Option<Row>
    ensures { number_or_none result ≡ min (number_or_none x) (number_or_none y) }
{
    match (x, y) {
        (Some(first), Some(second)) if second.number() < first.number() => y,
        (None, _) => y,
        _ => x,
    }
}

// The first row that refuses one of three fields of these sorts, where it is told which fit. (Three answers beside the sorts:
// `first_of` is told of these, whatever the fields hold.)
fn first_fault(sorts: Sorts, a: bool, b: bool, next: bool) -> Option<Row>
    ensures { number_or_none result ≡ first_of sorts a b next }
{
    earlier(
        fault(a, sorts.a),
        earlier(fault(b, sorts.b), fault(next, sorts.next)),
    )
}

// Where record i of v is, or is to stand: the records before it can be read, and so many roles there are.
#[derive(Clone, Copy)]
struct Slot<'a> {
    v: &'a [u8],
    i: usize,
    roles: u16,
    ghost at_record: { AtRecord v.now i roles },
}

impl Slot<'_> {
    // Row 7: whether a record of this kind that is earlier has this label. The loop has no way out before its end, so that the
    // compiler compares several records at once.
    fn is_labelled(&self, kind: Kind, label: u16) -> bool
        ensures { result ≡ labelled self.now.v.now self.now.i (number_of_kind kind) label }
    {
        let mut found = false;
        for j in 0..self.i {
            if is_named(self.v, kind, label, j) {
                found = true;
            }
        }
        found
    }

    // Row 5: a term number.
    fn term_fits(&self, number: u16) -> bool
        ensures { result ≡ term_fits self.now.v.now self.now.i number }
    {
        let at = usize::from(number);
        1 <= at && at < self.i && Record::read_at(self.v, at).is_term()
    }

    // One field: whether rows 4 to 7 have nothing against x where this sort is held. Row 8 comes after all records.
    fn field_fits(&self, sort: Sort, x: u16) -> bool
        ensures { result ≡ field_fits self.now.v.now self.now.i sort x }
    {
        match sort {
            Sort::Spare => x == 0,
            Sort::Term => self.term_fits(x),
            Sort::Role => x < self.roles,
            Sort::Label => !self.is_labelled(Kind::Name, x),
            Sort::Link => true,
        }
    }

    // Rows 4 to 7 at fields f that hold these sorts: each is asked for its row.
    fn check_sorts(&self, f: Record, sorts: Sorts) -> Result<(), Refusal>
        ensures { answered result ≡ rows_check self.now.v.now self.now.i sorts f }
    {
        let a = self.field_fits(sorts.a, f.a);
        let b = self.field_fits(sorts.b, f.b);
        let next = self.field_fits(sorts.next, f.next);
        match first_fault(sorts, a, b, next) {
            Some(row) => Err(Refusal { row, place: self.i }),
            None => Ok(()),
        }
    }

    // Rows 3 to 7 at the fields f, which may not stand there yet.
    fn check(&self, f: Record) -> Result<(), Refusal>
        ensures { answered result ≡ fields_check self.now.v.now self.now.i f }
    {
        check_kind(f, self.i)?;
        self.check_sorts(f, f.sorts())
    }

    // Whether all three fields f fit these sorts.
    #[inline(always)]
    fn fields_fit(&self, f: Record, sorts: Sorts) -> bool
        ensures { result ≡ all_fit self.now.v.now self.now.i sorts f }
    {
        self.field_fits(sorts.a, f.a)
            && self.field_fits(sorts.b, f.b)
            && self.field_fits(sorts.next, f.next)
    }

    // The same for the sorts of a kind. (A call in each arm, so that the compiler makes a test of its own of it.)
    #[inline(always)]
    fn kind_fits(&self, f: Record, kind: Kind) -> bool
        ensures { result ≡ all_fit self.now.v.now self.now.i (sorts_of (number_of_kind kind)) f }
    {
        match kind {
            Kind::Top | Kind::Bottom => self.fields_fit(f, Kind::Top.sorts()),
            Kind::Name => self.fields_fit(f, Kind::Name.sorts()),
            Kind::Negation => self.fields_fit(f, Kind::Negation.sorts()),
            Kind::Conjunction | Kind::Disjunction => self.fields_fit(f, Kind::Conjunction.sorts()),
            Kind::Existential | Kind::Universal => self.fields_fit(f, Kind::Existential.sorts()),
            Kind::Inclusion => self.fields_fit(f, Kind::Inclusion.sorts()),
        }
    }

    // Whether rows 3 to 7 have nothing against the fields f.
    fn fits(&self, f: Record) -> bool
        ensures { result ≡ record_fits self.now.v.now self.now.i f }
    {
        match check_kind(f, self.i) {
            Ok(kind) => self.kind_fits(f, kind),
            Err(_) => false,
        }
    }
}

// Rows 3 to 7 at record i with the fields f, which does not stand there yet.
pub fn check_new_record(v: &[u8], i: usize, roles: u16, f: Record) -> Result<(), Refusal>
    requires { AtRecord v.now i roles }
    ensures { answered result ≡ fields_check v.now i f }
{
    Slot { v, i, roles }.check(f)
}

// Rows 3 to 7 at each record in turn: only where something does not fit, each row is asked. (A `for` with `?`, as in scripts: a
// function that takes the check would be no shorter.)
fn check_each(v: &[u8]) -> Result<(), Refusal>
    requires { record_size ≤ length v.now }
    ensures { answered result ≡ in_turn (record_check v.now) 1 (count v.now - 1) }
{
    let roles = Record::read_at(v, 0).b;
    for i in 1..v.len() / Record::SIZE {
        let slot = Slot { v, i, roles };
        let f = Record::read_at(v, i);
        if !slot.fits(f) {
            slot.check(f)?;
        }
    }
    Ok(())
}

// Row 8: the header's A, then each statement's next, on the chain or off it.
#[tactic(auto, unfolding(crate::specs::Check::link_check))]
fn check_links(v: &[u8]) -> Result<(), Refusal>
    requires { record_size ≤ length v.now }
    ensures { answered result ≡ links_check v.now }
{
    layout::check_links::<Record>(v, Record::read_at(v, 0).a, Row::Link)
}

// Rows 1 to 8: what later rows may ask of a vocabulary.
#[tactic(auto, unfolding(crate::specs::Check::records_check))]
fn check_records(v: &[u8]) -> Result<(), Refusal>
    ensures { answered result ≡ records_check v.now }
{
    check_length(v)?;
    check_header(v)?;
    check_each(v)?;
    check_links(v)
}

// Row 28: the k that an edition 2 header holds. In edition 1 nothing is counted.
fn check_held(v: &[u8]) -> Result<(), Refusal>
    requires { record_size ≤ length v.now }
    ensures { answered result ≡ held_check v.now }
{
    let header = Record::read_at(v, 0);
    // (The edition is a number, as row 2 has it; nothing else is asked of it.)
    if header.second != 2 {
        return Ok(());
    }
    let held = header.next as usize;
    let k = count_atoms(v);
    require(held == k, Row::AtomsHeld, k)
}

// All rows of the vocabulary check.
#[tactic(auto, unfolding(crate::specs::Check::vocabulary_rows))]
fn check_all(v: &[u8]) -> Result<(), Refusal>
    ensures { answered result ≡ vocabulary_rows v.now }
{
    check_records(v)?;
    check_held(v)
}

// The vocabulary check: the number of records, or the first refusal in table order.
#[tactic(auto, unfolding(crate::specs::Check::vocabulary_check))]
pub fn check_vocabulary(v: &[u8]) -> Result<usize, Refusal>
    ensures { answered result ≡ vocabulary_check v.now }
{
    check_all(v)?;
    Ok(v.len() / Record::SIZE)
}
