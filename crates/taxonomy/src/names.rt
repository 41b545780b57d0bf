// The names of a vocabulary, in record order.
ghost use Rattle.std.specs.Prelude.{◌≤◌};
ghost use Rattle.types.specs.Comparison.{atom_limit};
ghost use Rattle.taxonomy.specs.Code.Meets.{AtomNumbers};

use records::fields::Record;
use records::layout::Layout;
use types::{SmallVocabulary, TypeData};

// How many, and each one's number among the atoms: an array with room for the most, since there is no heap.
#[derive(Clone, Copy)]
pub struct Names {
    pub count: usize,
    pub atoms: [u16; TypeData::ATOMS],
    pub ghost few: { count ≤ atom_limit },
    pub ghost small: { AtomNumbers atoms },
}

impl Names {
    ghost use Rattle.taxonomy.specs.Code.Names.{NamesListed};

    // The bytes of the largest table, with an entry for each pair of names.
    pub const TABLE_BYTES: usize = TypeData::ATOMS * TypeData::ATOMS;

    pub fn of(v: &SmallVocabulary) -> Self
        ensures { NamesListed v.now.bytes.now result }
    {
        let mut numbers = [0; TypeData::ATOMS];
        let mut count = 0;
        let mut atom = 0;
        for i in 0..v.bytes.len() / Record::SIZE {
            let fields = Record::read_at(v.bytes, i);
            if fields.is_name() {
                numbers[count] = atom;
                count += 1;
            }
            atom += u16::from(fields.is_atom());
        }
        Names {
            count,
            atoms: numbers,
        }
    }
}
