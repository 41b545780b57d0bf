// Each record's truth rule and operands, read once for a call.
ghost use Rattle.std.specs.Prelude.{◌≡◌};
ghost use Rattle.types.specs.Code.Rules.{rule_for, select, Decoded};

use crate::vocabulary::SmallVocabulary;
use records::fields::Record;
use records::kinds::Kind;
use records::layout::Layout;

// A truth rule as a table of four bits: bit x + 2 y is the truth where the first operand is x and the second y. With it go the
// operands' places. (The wide table makes it eight bytes, so that one index finds a record's rule and its truth.)
#[derive(Clone, Copy, Default)]
pub struct Rule {
    pub table: u32,
    pub first: u16,
    pub second: u16,
}

impl Rule {
    // A and B where they are operands, or B the filler; else the record itself, for an atom's truth is set before, and 0.
    #[tactic(auto, unfolding(crate::specs::Code::Rules::shape_of))]
    fn of(fields: Record, own: u16) -> Rule
        ensures { result ≡ rule_for fields own }
    {
        let (table, first, second) = match Kind::of(fields.kind) {
            None | Some(Kind::Bottom) => (0, own, 0),
            Some(Kind::Top) => (15, own, 0),
            Some(Kind::Name) => (10, own, 0),
            Some(Kind::Negation) => (5, fields.a, 0),
            Some(Kind::Conjunction) => (8, fields.a, fields.b),
            Some(Kind::Disjunction) => (14, fields.a, fields.b),
            Some(Kind::Existential | Kind::Universal) => (10, own, fields.b),
            Some(Kind::Inclusion) => (13, fields.a, fields.b),
        };
        Rule {
            table,
            first,
            second,
        }
    }

    // The truth that the rule gives, from the truths of its operands.
    pub fn apply(&self, x: bool, y: bool) -> bool
        ensures { result ≡ select self.now.table x y }
    {
        let index = u32::from(x) + 2 * u32::from(y);
        (self.table >> index) % 2 == 1
    }
}

impl SmallVocabulary<'_> {
    // The rules of all records.
    pub(crate) fn decode(&self, code: &mut [Rule; Record::LIMIT])
        ensures { Decoded self.now.bytes.now code.new }
    {
        for i in 0..self.bytes.len() / Record::SIZE {
            code[i] = Rule::of(Record::read_at(self.bytes, i), i as u16);
        }
    }
}
