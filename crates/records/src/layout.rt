// Files of records of one size, of which some name a later one: vocabularies with their statements, scripts with their steps.
ghost use Rattle.std.specs.Prelude.{◌≡◌, ◌+◌, ◌*◌, ◌≤◌, ◌<◌, ◌^◌, ℕ, Bool, List, length};
ghost use Rattle.records.specs.Refusals.{answered, number_of};
ghost use Rattle.records.specs.Code.Layout.{length_fits, bytes_at, link_fits, link_check, each_link_check, links_check};

use crate::refusals::{Refusal, Row, require};

// How records lie in a file, and which of them are linked: each of these names the next of them, or 0.
pub trait Layout: Copy {
    ghost SIZE: { ℕ };

    ghost LIMIT: { ℕ };

    // The record that these bytes hold; record i of a file.
    ghost of: { List ℕ → Self };

    ghost at: { List ℕ → ℕ → Self };

    ghost linked: { Self → Bool };

    ghost next: { Self → ℕ };

    // Bytes of a record.
    const SIZE: usize;
    // Records of a file, header included.
    const LIMIT: usize;

    // The record that its bytes hold.
    fn read(part: &[u8]) -> Self
        requires { length part.now ≡ SIZE }
        ensures { result ≡ of part.now };

    fn is_linked(self) -> bool
        ensures { result ≡ linked self };

    // What a linked record names.
    fn next(self) -> u16
        ensures { result ≡ next self };

    ghost some: { 1 ≤ SIZE };

    ghost small: { SIZE * LIMIT < 2 ^ 64 };

    ghost reads: { (bytes : List ℕ) (i : ℕ) → of (bytes_at SIZE bytes i) ≡ at bytes i };

    // Record i of a file that has it.
    final fn read_at(bytes: &[u8], i: usize) -> Self
        requires { SIZE * i + SIZE ≤ length bytes.now }
        ensures { result ≡ at bytes.now i }
    {
        let at = Self::SIZE * i;
        Self::read(&bytes[at..at + Self::SIZE])
    }
}

// Rows 1 and 13: the length.
pub fn length_fits<E: Layout>(bytes: &[u8]) -> bool
    ensures { result ≡ length_fits E.SIZE E.LIMIT bytes.now }
{
    (E::SIZE..=E::SIZE * E::LIMIT).contains(&bytes.len()) && bytes.len() % E::SIZE == 0
}

// Rows 8 and 19: the number of the next linked record after record i, or 0.
fn link_fits<E: Layout>(bytes: &[u8], i: usize, next: u16) -> bool
    ensures { result ≡ link_fits E.SIZE E.at E.linked bytes.now i next }
{
    let at = usize::from(next);
    at == 0 || (i < at && at < bytes.len() / E::SIZE && E::read_at(bytes, at).is_linked())
}

// The same at record i, where that is linked.
fn check_link<E: Layout>(bytes: &[u8], i: usize, row: Row) -> Result<(), Refusal>
    requires { E.SIZE * i + E.SIZE ≤ length bytes.now }
    ensures { answered result ≡ link_check E.SIZE E.at E.linked E.next (number_of row) bytes.now i }
{
    let e = E::read_at(bytes, i);
    require(!e.is_linked() || link_fits::<E>(bytes, i, e.next()), row, i)
}

#[tactic(auto, using(crate::proofs::Laws::Checks::turns))]
fn check_each_link<E: Layout>(bytes: &[u8], row: Row) -> Result<(), Refusal>
    ensures { answered result ≡ each_link_check E.SIZE E.at E.linked E.next (number_of row) bytes.now }
{
    for i in 1..bytes.len() / E::SIZE {
        check_link::<E>(bytes, i, row)?;
    }
    Ok(())
}

// What the header names first, then each linked record's next, on the chain or off it.
pub fn check_links<E: Layout>(bytes: &[u8], first: u16, row: Row) -> Result<(), Refusal>
    ensures { answered result ≡ links_check E.SIZE E.at E.linked E.next (number_of row) bytes.now first }
{
    require(link_fits::<E>(bytes, 0, first), row, 0)?;
    check_each_link::<E>(bytes, row)
}
