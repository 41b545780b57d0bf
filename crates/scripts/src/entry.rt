// A script record's bytes as numbers, its kind, and where it stands.
ghost use Rattle.std.specs.Prelude.{◌≡◌};
ghost use Rattle.std.proofs.Common.{rules};
ghost use Rattle.scripts.specs.Format.{entry_size, entry_limit, entry_of, entry_at, kind_of, is_term, is_step};
ghost use Rattle.scripts.specs.Code.Kinds.{kind_numbered, number_or_none};
ghost use Rattle.scripts.specs.Code.Layout.{entry_read};
ghost use Rattle.scripts.specs.Code.Ready.{HasEntry};

use records::layout::Layout;

// The kinds of records, but for the header's.
#[derive(Clone, Copy, Debug, PartialEq, Eq)]
pub enum EntryKind {
    Constant,
    Term,
    Start,
    Extension,
    Reduction,
}

impl EntryKind {
    // The kind that has this number, if one does. (No TryFrom: of a number of no kind there is no more to say.)
    pub fn of(w0: u16) -> Option<EntryKind>
        ensures { result ≡ kind_numbered w0 }
    {
        match w0 {
            1 => Some(EntryKind::Constant),
            2 => Some(EntryKind::Term),
            3 => Some(EntryKind::Start),
            4 => Some(EntryKind::Extension),
            5 => Some(EntryKind::Reduction),
            _ => None,
        }
    }
}

// (Numbers: the words of a script may be any.)
#[derive(Clone, Copy)]
pub struct Entry {
    pub w0: u16,
    pub w1: u16,
    pub w2: u16,
    pub w3: u16,
    pub w4: u16,
    pub w5: u16,
    pub w6: u16,
    pub w7: u16,
}

impl Entry {
    // In the place of a kind, what the header has.
    pub const HEADER: u16 = 32;

    pub fn kind(self) -> Option<EntryKind>
        ensures number { result ≡ kind_numbered self.w0 }
        ensures meaning { kind_of self.w0 ≡ kind_of (number_or_none result) }
    {
        EntryKind::of(self.w0)
    }

    pub fn is_term(self) -> bool
        ensures { result ≡ is_term self.w0 }
    {
        matches!(self.kind(), Some(EntryKind::Constant | EntryKind::Term))
    }

    pub fn is_step(self) -> bool
        ensures { result ≡ is_step self.w0 }
    {
        matches!(
            self.kind(),
            Some(EntryKind::Start | EntryKind::Extension | EntryKind::Reduction)
        )
    }
}

impl Layout for Entry {
    ghost SIZE = { entry_size };

    ghost LIMIT = { entry_limit };

    ghost of = { entry_of };

    ghost at = { entry_at };

    ghost linked = { λ e. is_step e.w0 };

    ghost next = { λ e. e.w7 };

    ghost some = { Prim.search rules };

    ghost small = { Prim.search rules };

    ghost reads = { entry_read };

    const SIZE: usize = 16;

    const LIMIT: usize = 2048;

    fn read(part: &[u8]) -> Entry {
        Entry {
            w0: u16::from_le_bytes([part[0], part[1]]),
            w1: u16::from_le_bytes([part[2], part[3]]),
            w2: u16::from_le_bytes([part[4], part[5]]),
            w3: u16::from_le_bytes([part[6], part[7]]),
            w4: u16::from_le_bytes([part[8], part[9]]),
            w5: u16::from_le_bytes([part[10], part[11]]),
            w6: u16::from_le_bytes([part[12], part[13]]),
            w7: u16::from_le_bytes([part[14], part[15]]),
        }
    }

    fn is_linked(self) -> bool {
        self.is_step()
    }

    fn next(self) -> u16 {
        self.w7
    }
}

// A step of a script, and the number of its record, without the script, which the chain has.
#[derive(Clone, Copy)]
pub struct StepRecord {
    pub number: usize,
    pub entry: Entry,
}

// A record of a script, and where it stands.
#[derive(Clone, Copy)]
pub struct Placed<'a> {
    pub script: &'a [u8],
    pub number: usize,
    pub entry: Entry,
    pub ghost within: { HasEntry script.now number },
    pub ghost read: { entry ≡ entry_at script.now number },
}

impl Placed<'_> {
    // Record i of a script that has it.
    pub fn at(script: &[u8], number: usize) -> Placed<'_>
        requires { HasEntry script.now number }
        ensures script { result.script.now ≡ script.now }
        ensures number { result.number ≡ number }
    {
        Placed {
            script,
            number,
            entry: Entry::read_at(script, number),
        }
    }
}
