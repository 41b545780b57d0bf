// Type elimination: rounds over the set of the types that are left, with a list of them, whose length is their count.
ghost use Rattle.std.specs.Prelude.{◌≡◌, true, false, ℕ, ◌+◌, ◌≤◌, ◌<◌, [], length, get_or};
ghost use Rattle.std.specs.Int.Bits.{bit_or};
ghost use Rattle.records.specs.Finite.{has};
ghost use Rattle.types.specs.Survivors.{round, stage, survivors};
ghost use Rattle.types.specs.Code.Words.{RestrictionWords, FillerWords, SameSet};
ghost use Rattle.types.specs.Code.Elimination.{Masks, Enumerates, Joins, Enters, Eliminating, met_by, met_at};
ghost use Rattle.types.specs.Code.Elimination.{Keeps, AtStage};
ghost use Rattle.types.specs.Comparison.{type_limit, counts};

use crate::answers::Counts;
use crate::remaining::Remaining;
use crate::type_data::{Plan, TypeData};
use crate::zeta::zeta_transform;
use records::fields::Record;
use records::layout::Layout;

// Lists the types of the set, in rising order. (`size` is a plain number, as in the zeta transform.)
fn list_alive(alive: &[bool; TypeData::TYPES], size: usize, remaining: &mut Remaining)
    requires size_le_type_limit { size ≤ type_limit }
    requires by_index { (t : ℕ) → size ≤ t → has alive.now t ≡ false }
    requires empty { remaining.old ≡ [] }
    ensures { Enumerates remaining.new alive.now }
{
    for t in 0..size {
        if alive[t] {
            remaining.push(t as u16);
        }
    }
}

// Enters the word of the fillers at each listed type at its own place, in a table whose words below `size` are cleared first.
fn enter_words(
    filling: &[u16; TypeData::TYPES],
    remaining: &[u16],
    size: usize,
    joins: &mut [u16; TypeData::TYPES],
)
    requires by_index { (j : ℕ) → j < length remaining.now → get_or remaining.now j 0 < type_limit }
    requires by_index_2 { (j : ℕ) → j < length remaining.now
        → get_or filling.now (get_or remaining.now j 0) 0 < type_limit }
    requires size_le_type_limit { size ≤ type_limit }
    ensures { Enters filling.now remaining.now (length remaining.now) size joins.new }
{
    joins[..size].fill(0);
    for &t in remaining {
        let word = filling[t as usize];
        joins[word as usize] = word;
    }
}

// Whether what a type needs by restrictions of one role is met.
fn is_met(joins: &[u16; TypeData::TYPES], mask: u16, held: u16) -> bool
    requires { bit_or held mask < type_limit }
    ensures { result ≡ met_by joins.now mask held }
{
    let reached = held | mask;
    (joins[reached as usize] | mask) == reached
}

// Removes the types whose needs by restrictions of one role are not met, from the set and from the list of its members. (The
// list falls as the loop goes, and what takes a removed one's place is looked at next: no range.)
fn remove_unmet(
    held: &[u16; TypeData::TYPES],
    joins: &[u16; TypeData::TYPES],
    mask: u16,
    remaining: &mut Remaining,
    alive: &mut [bool; TypeData::TYPES],
)
    requires enumerates { Enumerates remaining.old alive.old }
    requires by_index { (t : ℕ) → has alive.old t ≡ true → bit_or (get_or held.now t 0) mask < type_limit }
    ensures enumerates_2 { Enumerates remaining.new alive.new }
    ensures keeps { Keeps (met_at joins.now mask held.now) alive.old alive.new }
{
    let mut j = 0;
    while j < remaining.len() {
        let t = remaining.as_slice()[j] as usize;
        if is_met(joins, mask, held[t]) {
            j += 1;
        } else {
            alive[t] = false;
            remaining.swap_remove(j);
        }
    }
}

// The same for the restrictions of all roles, one after the other; a role with no restriction asks for nothing. How many
// are left. (The tables go from round to round as they are: a struct of them would be opened in each function.)
fn remove_by_roles(
    v: &[u8],
    bits: usize,
    masks: &[u16; Record::ROLES as usize],
    held: &[u16; TypeData::TYPES],
    joins: &[u16; TypeData::TYPES],
    remaining: &mut Remaining,
    alive: &mut [bool; TypeData::TYPES],
) -> usize
    requires eliminating { Eliminating v.now bits masks.now held.now remaining.old alive.old }
    requires joins { Joins v.now alive.old joins.now }
    ensures eliminating_2 { Eliminating v.now bits masks.now held.now remaining.new alive.new }
    ensures same_set { SameSet alive.new (round v.now alive.old) }
    ensures left { result ≡ length remaining.new }
{
    let count = Record::read_at(v, 0).b;
    let full = (1 << bits) - 1;
    for &mask in &masks[..count as usize] {
        if mask != full {
            remove_unmet(held, joins, mask, remaining, alive);
        }
    }
    remaining.len()
}

// One round: removes together all types that the set as the round began does not serve; how many are left. From the set
// after n rounds it makes the one after n + 1, and answers how many types that has. The table of joins is lent: what it held
// is of no matter.
fn remove_unserved(
    v: &[u8],
    bits: usize,
    masks: &[u16; Record::ROLES as usize],
    held: &[u16; TypeData::TYPES],
    filling: &[u16; TypeData::TYPES],
    remaining: &mut Remaining,
    joins: &mut [u16; TypeData::TYPES],
    alive: &mut [bool; TypeData::TYPES],
) -> usize
    requires eliminating { Eliminating v.now bits masks.now held.now remaining.old alive.old }
    requires filler_words { FillerWords v.now filling.now }
    ensures eliminating_2 { Eliminating v.now bits masks.now held.now remaining.new alive.new }
    ensures same_set { SameSet alive.new (round v.now alive.old) }
    ensures by_index { (n : ℕ) → SameSet alive.old (stage v.now n)
        → AtStage v.now (n + 1) alive.new result }
    ensures left { result ≡ length remaining.new }
{
    enter_words(filling, remaining.as_slice(), 1 << bits, joins);
    zeta_transform(joins, bits);
    remove_by_roles(v, bits, masks, held, joins, remaining, alive)
}

impl Plan<'_> {
    // The words of the other roles, for each role: no round works them out again. (Room for all roles: fixed memory.)
    fn list_masks(&self) -> [u16; Record::ROLES as usize]
        ensures { Masks self.now.v.now result }
    {
        let count = Record::read_at(self.v, 0).b;
        let mut masks = [0; Record::ROLES as usize];
        for role in 0..count {
            masks[role as usize] = self.other_roles(role);
        }
        masks
    }

    // Rounds until one removes nothing, so that the survivors are left; how many they are, and how many rounds removed something.
    // The count begins with the types at which every statement holds, and each removal lowers it: no table is counted again.
    pub fn eliminate(
        &self,
        held: &[u16; TypeData::TYPES],
        filling: &[u16; TypeData::TYPES],
        alive: &mut [bool; TypeData::TYPES],
    ) -> Counts
        requires restriction_words { RestrictionWords self.now.v.now held.now }
        requires filler_words { FillerWords self.now.v.now filling.now }
        requires same_set { SameSet alive.old (stage self.now.v.now 0) }
        ensures same_set_2 { SameSet alive.new (survivors self.now.v.now) }
        ensures value { result ≡ counts self.now.v.now }
    {
        let masks = self.list_masks();
        let bits = self.restrictions.len();
        let size = 1 << self.atoms.len();
        let mut remaining = Remaining::new();
        let mut joins = [0; TypeData::TYPES];
        list_alive(alive, size, &mut remaining);
        let mut left = remaining.len();
        let mut done = 0;
        loop {
            let rest = remove_unserved(
                self.v,
                bits,
                &masks,
                held,
                filling,
                &mut remaining,
                &mut joins,
                alive,
            );
            if rest == left {
                return Counts {
                    survivors: rest,
                    rounds: done,
                };
            }
            left = rest;
            done += 1;
        }
    }
}
