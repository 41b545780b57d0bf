// Atoms.
ghost use Rattle.std.specs.Prelude.{◌≡◌};
ghost use Rattle.records.specs.Atoms.{atoms};

use crate::fields::Record;
use crate::layout::Layout;

// "k is their count."
pub fn count_atoms(v: &[u8]) -> usize
    ensures { result ≡ atoms v.now }
{
    let mut found = 0;
    for i in 0..v.len() / Record::SIZE {
        found += usize::from(Record::read_at(v, i).is_atom());
    }
    found
}
