// A record's bytes as numbers.
ghost use Rattle.std.specs.Prelude.{◌≡◌, length};
ghost use Rattle.std.proofs.Common.{rules};
ghost use Rattle.records.specs.Format.{record_size, record_limit, record_of, record_bytes, record_at};
ghost use Rattle.records.specs.Kinds.{is_statement};
ghost use Rattle.records.specs.Code.Layout.{record_read};

use crate::layout::Layout;

#[derive(Clone, Copy, Debug, PartialEq, Eq)]
pub struct Record {
    // Numbers: the bytes of a file may be any; `Kind::of` reads the kind.
    pub kind: u8,
    pub second: u8,
    pub a: u16,
    pub b: u16,
    pub next: u16,
}

impl Record {
    // The header's kind.
    pub const HEADER: u8 = 16;
    // Roles of a vocabulary.
    pub const ROLES: u16 = 64;
    // Bytes of a number.
    pub const WORD: usize = 2;
    // Where A and next stand in a record.
    pub const A_AT: usize = 2;

    pub const NEXT_AT: usize = 6;

    // Writes the record over eight bytes.
    pub fn write(self, part: &mut [u8])
        requires { length part.old ≡ record_size }
        ensures { part.new ≡ record_bytes self }
    {
        let [a, a_high] = self.a.to_le_bytes();
        let [b, b_high] = self.b.to_le_bytes();
        let [next, next_high] = self.next.to_le_bytes();
        part.copy_from_slice(&[
            self.kind,
            self.second,
            a,
            a_high,
            b,
            b_high,
            next,
            next_high,
        ]);
    }
}

impl Layout for Record {
    ghost SIZE = { record_size };

    ghost LIMIT = { record_limit };

    ghost of = { record_of };

    ghost at = { record_at };

    ghost linked = { λ r. is_statement r.kind };

    ghost next = { λ r. r.next };

    ghost some = { Prim.search rules };

    ghost small = { Prim.search rules };

    ghost reads = { record_read };

    const SIZE: usize = 8;

    const LIMIT: usize = 512;

    fn read(part: &[u8]) -> Record {
        Record {
            kind: part[0],
            second: part[1],
            a: u16::from_le_bytes([part[2], part[3]]),
            b: u16::from_le_bytes([part[4], part[5]]),
            next: u16::from_le_bytes([part[6], part[7]]),
        }
    }

    fn is_linked(self) -> bool {
        self.is_statement()
    }

    fn next(self) -> u16 {
        self.next
    }
}
