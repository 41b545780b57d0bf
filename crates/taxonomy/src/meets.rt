// Which names are broader, by meets: bitwise ands of types.
ghost use Rattle.std.specs.Prelude.{◌≡◌, ℕ, ◌≤◌, ◌<◌};
ghost use Rattle.records.specs.Finite.{bit};
ghost use Rattle.types.specs.Survivors.{survivors};
ghost use Rattle.types.specs.Comparison.{atom_limit, type_limit};
ghost use Rattle.types.specs.Code.Words.{SameSet};
ghost use Rattle.taxonomy.specs.Code.Meets.{half_bits, halves, Meets, low, high, jointly, jointly_by, MeetsListed, Above};
ghost use Rattle.taxonomy.specs.Code.Names.{NamesListed};

use crate::names::Names;
use types::{SmallVocabulary, TypeData};

// The meets of a set of types, for each value of the low half of their bits and of the high half.
#[derive(Clone, Copy)]
pub struct Halves {
    pub low: [u16; Halves::COUNT],
    pub high: [u16; Halves::COUNT],
}

impl Halves {
    // The bits of the low half, and how many values they have.
    pub const BITS: u16 = TypeData::ATOMS as u16 / 2;

    pub const COUNT: usize = 1 << (TypeData::ATOMS / 2);

    // The meet of no type: all bits.
    pub const ALL: u16 = (TypeData::TYPES - 1) as u16;

    // The meets of the types below `size` that are in a set.
    fn of(alive: &[bool; TypeData::TYPES], size: usize) -> Self
        requires { size ≤ type_limit }
        ensures meets { Meets low alive.now size result.low }
        ensures meets_2 { Meets high alive.now size result.high }
    {
        let mut lows = [Halves::ALL; Halves::COUNT];
        let mut highs = [Halves::ALL; Halves::COUNT];
        for t in 0..size {
            if alive[t] {
                lows[t % Halves::COUNT] &= t as u16;
                highs[t / Halves::COUNT] &= t as u16;
            }
        }
        Halves {
            low: lows,
            high: highs,
        }
    }

    // The meet of the types that have bit p, from the half that has it.
    fn meet_atom(&self, p: u16) -> u16
        requires { p < atom_limit }
        ensures { (q : ℕ) → q < atom_limit → bit result q ≡ jointly_by self.now.low self.now.high p q }
    {
        if p < Halves::BITS {
            meet_part(&self.low, p)
        } else {
            meet_part(&self.high, p - Halves::BITS)
        }
    }

    // That meet for each name.
    fn meet_names(&self, names: Names) -> [u16; TypeData::ATOMS]
        ensures { MeetsListed self.now.low self.now.high names.atoms names.count result }
    {
        let mut meets = [0; TypeData::ATOMS];
        for i in 0..names.count {
            meets[i] = self.meet_atom(names.atoms[i]);
        }
        meets
    }
}

// The meet of those words of a table whose place has bit p.
fn meet_part(table: &[u16; Halves::COUNT], p: u16) -> u16
    requires { p < half_bits }
    ensures { (q : ℕ) → q < atom_limit → bit result q ≡ jointly table.now p halves q }
{
    let mut word = Halves::ALL;
    for x in 0..Halves::COUNT {
        if (x >> p) % 2 == 1 {
            word &= table[x];
        }
    }
    word
}

// For each name a word that says which names are broader, where `alive` has the survivors.
pub fn find_broader(
    v: &SmallVocabulary,
    names: Names,
    alive: &[bool; TypeData::TYPES],
) -> [u16; TypeData::ATOMS]
    requires names_listed { NamesListed v.now.bytes.now names }
    requires same_set { SameSet alive.now (survivors v.now.bytes.now) }
    ensures { Above v.now.bytes.now result }
{
    Halves::of(alive, v.type_count()).meet_names(names)
}
