// The index of terms: each term record gets the first record of the same term, its origin.
ghost use Rattle.std.specs.Prelude.{◌≡◌, ◌+◌, ◌*◌, ◌/◌, ◌≤◌, ◌<◌, length};
ghost use Rattle.columns.specs.Code.Packed.{term_limit};
ghost use Rattle.scripts.specs.Format.{entries};
ghost use Rattle.scripts.specs.Code.Codes.{function_limit, code_of};
ghost use Rattle.scripts.specs.Code.Index.{code_in, origin_in, TermsBefore, AllNumbered, Blank, Tree, passes};
ghost use Rattle.scripts.specs.Code.Index.{Found, Entered, IndexedBelow};
ghost use Rattle.scripts.specs.Code.Ready.{HasEntry, Formed};

use crate::entry::{Entry, EntryKind};
use records::layout::Layout;

// Functions of a vocabulary have 9 bits.
const FUNCTIONS: u32 = 512;
// Codes of terms have 20 bits.
const CODES: u32 = 1048576;
// Links of a record: to the root of a tree, and to two children.
const LINKS: usize = 3;
// Few records up to the last term, for which there are small tables.
pub const FEW: usize = 64;
// The links of those, and of all records.
pub const FEW_LINKS: usize = LINKS * FEW;

pub const ALL_LINKS: usize = LINKS * Entry::LIMIT;

// Function f at the term whose origin is record t, as a number (specs/Code/Codes.antt): one comparison tells of both.
pub fn code_of(f: u16, t: u32) -> u32
    requires { function_limit * t < term_limit }
    ensures { result ≡ code_of f t }
{
    f as u32 + FUNCTIONS * t
}

// The code of record n's term, and its origin, by the table of terms.
pub fn code_in(terms: &[u32], n: usize) -> u32
    requires { n < length terms.now }
    ensures { result ≡ code_in terms.now n }
{
    terms[n] % CODES
}

pub fn origin_in(terms: &[u32], n: usize) -> u32
    requires { n < length terms.now }
    ensures { result ≡ origin_in terms.now n }
{
    terms[n] / CODES
}

// The index, in tables that are lent: three links of each record, and the number of its term. (Numbers for links: there is no
// heap. A term's code and origin share a word: one table to clear. `Tree` is no invariant: the tables begin without one.)
#[derive(Drop)]
pub struct Index<'a> {
    pub links: &'a mut [u16],
    pub terms: &'a mut [u32],
}

impl Index<'_> {
    // Whether a search for a code goes on at a slot: its record is of another code.
    fn passes(&self, code: u32, slot: usize) -> bool
        requires tree { Tree self.now.links.now self.now.terms.now }
        requires slot_in_bounds { slot < length self.now.links.now }
        ensures { result ≡ passes self.now.links.now self.now.terms.now code slot }
    {
        let node = self.links[slot] as usize;
        node != 0 && code_in(self.terms, node) != code
    }

    // A method, since the table is not known any more where it was lent from a method that writes to it.
    fn origin(&self, n: usize) -> u32
        requires { n < length self.now.terms.now }
        ensures { result ≡ origin_in self.now.terms.now n }
    {
        origin_in(self.terms, n)
    }

    // The slot where the search for a code ends: its record has the code, or it has none. Codes of one inner term differ in the
    // function alone, so the search passes as many records as a function has bits, or fewer.
    fn find_slot(&self, code: u32) -> usize
        requires tree { Tree self.now.links.now self.now.terms.now }
        requires function_limit_in_bounds { code / function_limit < length self.now.terms.now }
        ensures found { Found self.now.links.now self.now.terms.now code result }
        ensures within { result < length self.now.links.now }
    {
        let mut slot = LINKS * ((code / FUNCTIONS) as usize);
        let mut rest = code;
        // What is found leads the search: no range.
        while self.passes(code, slot) {
            slot = LINKS * (self.links[slot] as usize) + 1 + (rest % 2) as usize;
            rest /= 2;
        }
        slot
    }

    // The origin of the term of record i, by its code: the record that the search finds; where it finds none, record i, which is
    // entered.
    fn enter(&mut self, code: u32, i: u16) -> u16
        requires tree { Tree self.old.links.now self.old.terms.now }
        requires function_limit_in_bounds { code / function_limit < length self.old.terms.now }
        ensures entered { Entered self.old.links.now self.old.terms.now code i self.new.links.now result }
        ensures same { self.new.terms.now ≡ self.old.terms.now }
    {
        let slot = self.find_slot(code);
        let found = self.links[slot];
        // 0 is no record: a table of options would be twice as long to clear.
        if found != 0 {
            return found;
        }
        self.links[slot] = i;
        i
    }

    // Numbers record i, if it is a function term, and enters it where its term is new.
    fn number(&mut self, s: &[u8], i: usize)
        requires formed { Formed s.now }
        requires has_entry { HasEntry s.now i }
        requires lt_i { 1 < i }
        requires indexed_below { IndexedBelow s.now self.old.links.now self.old.terms.now i }
        ensures { IndexedBelow s.now self.new.links.now self.new.terms.now (i + 1) }
    {
        let e = Entry::read_at(s, i);
        if let Some(EntryKind::Term) = e.kind() {
            let code = code_of(e.w1, self.origin(e.w2 as usize));
            let origin = self.enter(code, i as u16);
            self.terms[i] = code + CODES * (origin as u32);
        }
    }

    // Numbers the terms of a script that keeps the form, of which none stands at `end` or after it.
    pub fn number_all(&mut self, s: &[u8], end: usize)
        requires formed { Formed s.now }
        requires terms_before { TermsBefore s.now end }
        requires end_bound { end ≤ entries s.now }
        requires blank { Blank s.now self.old.links.now self.old.terms.now }
        ensures { AllNumbered s.now self.new.terms.now }
    {
        self.terms[1] = CODES;
        for i in 2..end {
            self.number(s, i);
        }
    }
}

// The number after the last term record, as steps need no place in the tables; or few, for which there are small ones.
pub fn find_end(s: &[u8]) -> usize
    ensures terms_before { TermsBefore s.now result }
    ensures upper_bound { result ≤ entries s.now }
{
    let records = s.len() / Entry::SIZE;
    for last in (FEW..records).rev() {
        if Entry::read_at(s, last).is_term() {
            return last + 1;
        }
    }
    records.min(FEW)
}
