// The table of nearest names, from the words that say which names are broader.
ghost use Rattle.std.specs.Prelude.{◌≡◌, ◌++◌, ◌≤◌, ◌<◌, length, drop};
ghost use Rattle.records.specs.Finite.{table};
ghost use Rattle.types.specs.Comparison.{atom_limit};
ghost use Rattle.taxonomy.specs.Taxonomy.{taxonomy_bytes};
ghost use Rattle.taxonomy.specs.Code.Order.{is_above, strictly_above, amid, entry_of, byte_at};

use crate::names::Names;
use types::TypeData;

// The names, and for each a word that says which names are broader: found after them, from the survivors.
#[derive(Clone, Copy)]
pub struct Order {
    pub names: Names,
    pub meets: [u16; TypeData::ATOMS],
}

impl Order {
    // Whether name j is broader than name i.
    #[tactic(auto, unfolding(records::specs::Finite::bit))]
    fn is_broader(&self, i: usize, j: usize) -> bool
        requires i_lt_atom_limit { i < atom_limit }
        requires j_lt_atom_limit { j < atom_limit }
        ensures { result ≡ is_above self.now i j }
    {
        (self.meets[i] >> self.names.atoms[j]) % 2 == 1
    }

    fn is_strictly_broader(&self, i: usize, j: usize) -> bool
        requires i_lt_atom_limit { i < atom_limit }
        requires j_lt_atom_limit { j < atom_limit }
        ensures { result ≡ strictly_above self.now i j }
    {
        self.is_broader(i, j) && !self.is_broader(j, i)
    }

    // Whether a name is strictly between names i and j.
    fn is_between(&self, i: usize, j: usize) -> bool
        requires i_lt_atom_limit { i < atom_limit }
        requires j_lt_atom_limit { j < atom_limit }
        ensures { result ≡ amid self.now i j }
    {
        (0..self.names.count).any(|m| self.is_strictly_broader(i, m)
            && self.is_strictly_broader(m, j))
    }

    // The entry of names i and j: 2 if they are equal, 1 if j is nearest among the broader names, else 0: the byte that C reads.
    // (Here and above i and j are plain numbers, since the tests turn them round.)
    fn entry(&self, i: usize, j: usize) -> u8
        requires i_lt_atom_limit { i < atom_limit }
        requires j_lt_atom_limit { j < atom_limit }
        ensures { result ≡ entry_of self.now i j }
    {
        if !self.is_broader(i, j) {
            0
        } else if self.is_broader(j, i) {
            2
        } else {
            u8::from(!self.is_between(i, j))
        }
    }

    // Byte e of the table: a row of entries for each name, one after the other, then zeros.
    fn byte_at(&self, e: usize) -> u8
        ensures { result ≡ byte_at self.now e }
    {
        let n = self.names.count;
        if e < n * n {
            self.entry(e / n, e % n)
        } else {
            0
        }
    }

    // Writes the table over the first bytes of what is lent.
    pub fn write(&self, lent: &mut [u8])
        requires taxonomy_bytes_in_bounds { taxonomy_bytes ≤ length lent.old }
        ensures { lent.new
            ≡ table taxonomy_bytes (byte_at self.now) ++ drop taxonomy_bytes lent.old }
    {
        for e in 0..Names::TABLE_BYTES {
            lent[e] = self.byte_at(e);
        }
    }
}
