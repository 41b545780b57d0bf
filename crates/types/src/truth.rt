// Truth at a type.
ghost use Rattle.std.specs.Prelude.{◌≡◌, ◌+◌, ◌*◌, ◌≤◌, ◌<◌};
ghost use Rattle.types.specs.Comparison.{type_limit};
ghost use Rattle.types.specs.Code.Rules.{all_true, AtomsListed, AtomsSet, Truths};
ghost use Rattle.types.specs.Code.Settling.{Stating};
ghost use Rattle.records.specs.Finite.{digit};

use crate::type_data::{Plan, TypeData};
use crate::vocabulary::SmallVocabulary;
use records::chain::mark_chain;
use records::fields::Record;
use records::layout::Layout;

// A word with one bit more below its own.
pub fn push_bit(word: u16, bit: bool) -> u16
    requires { word < type_limit }
    ensures { result ≡ digit bit + 2 * word }
{
    u16::from(bit) + 2 * word
}

impl SmallVocabulary<'_> {
    // The atoms' places, in record order. (An array and its count, since there is no heap; this list and those of the statements
    // and the restrictions have other things in them, so that a shared loop would be no shorter.)
    pub(crate) fn list_atoms(&self) -> [u16; TypeData::ATOMS]
        ensures { AtomsListed self.now.bytes.now result }
    {
        let mut places = [0; TypeData::ATOMS];
        let mut found = 0;
        for i in 0..self.bytes.len() / Record::SIZE {
            if Record::read_at(self.bytes, i).is_atom() {
                places[found] = i as u16;
                found += 1;
            }
        }
        places
    }

    // Lists the statements in force in record order; how many there are.
    pub(crate) fn list_statements(&self, statements: &mut [u16; Record::LIMIT]) -> usize
        ensures { Stating self.now.bytes.now statements.new result }
    {
        let mut marks = [false; Record::LIMIT];
        mark_chain(self.bytes, &mut marks);
        let mut found = 0;
        for i in 0..self.bytes.len() / Record::SIZE {
            if marks[i] {
                statements[found] = i as u16;
                found += 1;
            }
        }
        found
    }
}

impl Plan<'_> {
    // Sets each atom's truth at type t: that of atom j is bit j. (One expression, of another width elsewhere.)
    fn set_atoms(&self, t: usize, values: &mut [bool; Record::LIMIT])
        ensures { AtomsSet self.now.v.now t values.new }
    {
        for (j, &at) in self.atoms.iter().enumerate() {
            values[at as usize] = (t >> j) % 2 == 1;
        }
    }

    // Each record's truth at type t, filled in record order; the atoms' are set first.
    pub fn truths(&self, t: usize, values: &mut [bool; Record::LIMIT])
        ensures { Truths self.now.v.now t values.new }
    {
        self.set_atoms(t, values);
        for (i, rule) in self.code.iter().enumerate() {
            values[i] = rule.apply(values[rule.first as usize], values[rule.second as usize]);
        }
    }

    // Whether every statement in force holds. (With `all` it is open that what its closure reads is within the table.)
    pub fn statements_hold(&self, values: &[bool; Record::LIMIT]) -> bool
        ensures { result ≡ all_true self.now.statements.now values.now }
    {
        for &at in self.statements {
            if !values[at as usize] {
                return false;
            }
        }
        true
    }
}
