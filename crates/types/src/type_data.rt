// What the comparison needs to know of each type, taken from one table of truths.
ghost use Rattle.std.specs.Prelude.{◌≡◌};
ghost use Rattle.types.specs.Code.Settling.{Prepared, Empty, Started, Worded, type_data_at};

use crate::decode::Rule;
use crate::restrict::{Restriction, Words};
use records::fields::Record;
use records::layout::Layout;

// At one type: whether every statement in force holds, whether the two terms differ, and the words of its
// restrictions and their fillers.
#[derive(Clone, Copy)]
pub struct TypeData {
    pub satisfies: bool,
    pub differs: bool,
    pub held: u16,
    pub filling: u16,
}

impl TypeData {
    // Atoms of a vocabulary that is compared, its types, and the bytes of the bitmap that holds a bit for each.
    pub const ATOMS: usize = 12;

    pub const TYPES: usize = 4096;

    pub const BYTES: usize = 512;
}

// What the data of a type is taken from: the vocabulary v, the terms a and b, the rules of the records, the places of the atoms
// and of the statements in force, and the restrictions.
#[derive(Clone, Copy)]
pub struct Plan<'a> {
    pub v: &'a [u8],
    pub a: usize,
    pub b: usize,
    pub code: &'a [Rule],
    pub atoms: &'a [u16],
    pub statements: &'a [u16],
    pub restrictions: &'a [Restriction],
    pub ghost prepared: { Prepared v.now a b code.now atoms.now statements.now restrictions.now },
}

impl Plan<'_> {
    // The data of type t; `values` then holds its truths.
    fn describe(&self, t: usize, values: &mut [bool; Record::LIMIT]) -> TypeData
        ensures { result ≡ type_data_at self.now.v.now self.now.a self.now.b t }
    {
        self.truths(t, values);
        let Words { held, filling } = self.words(values);
        TypeData {
            satisfies: self.statements_hold(values),
            differs: values[self.a] != values[self.b],
            held,
            filling,
        }
    }

    // The data of all types; `alive` has those at which the statements hold. A table for each part, not one of `TypeData`: the
    // rounds read one part at a time, of many types.
    pub fn describe_types(
        &self,
        alive: &mut [bool; TypeData::TYPES],
        differs: &mut [bool; TypeData::TYPES],
        held: &mut [u16; TypeData::TYPES],
        filling: &mut [u16; TypeData::TYPES],
    )
        requires { Empty alive.old }
        ensures started { Started self.now.v.now self.now.a self.now.b alive.new differs.new }
        ensures worded { Worded self.now.v.now held.new filling.new }
    {
        let mut values = [false; Record::LIMIT];
        for t in 0..1 << self.atoms.len() {
            let data = self.describe(t, &mut values);
            alive[t] = data.satisfies;
            differs[t] = data.differs;
            held[t] = data.held;
            filling[t] = data.filling;
        }
    }
}
