// The statements on the chain.
ghost use Rattle.std.specs.Prelude.{◌≡◌, false, ℕ, length, get_or};
ghost use Rattle.records.specs.Check.{IsWellFormed};
ghost use Rattle.records.specs.Chain.{chained, chain_end};

use crate::fields::Record;
use crate::layout::Layout;

// In a table without marks, marks the statements on the chain of a vocabulary that passed rows 1 to 8. (Here and below the chain
// leads the walk, not a range; an iterator of one use each would be longer than the walk.)
pub fn mark_chain(v: &[u8], marks: &mut [bool; Record::LIMIT])
    requires well_formed { IsWellFormed v.now }
    requires by_index { (i : ℕ) → get_or marks.old i false ≡ false }
    ensures { (i : ℕ) → get_or marks.new i false ≡ chained v.now i }
{
    let mut at = Record::read_at(v, 0).a as usize;
    while at != 0 {
        marks[at] = true;
        at = Record::read_at(v, at).next as usize;
    }
}

// The last statement on the chain of a vocabulary that passed rows 1 to 8, or 0, the header, as the file has it, where
// there is none.
pub fn find_end(v: &[u8]) -> usize
    requires { IsWellFormed v.now }
    ensures { result ≡ chain_end v.now }
{
    let mut end = 0;
    let mut at = Record::read_at(v, 0).a as usize;
    while at != 0 {
        end = at;
        at = Record::read_at(v, at).next as usize;
    }
    end
}
