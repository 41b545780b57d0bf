// What a set of types shows: the first at which the terms differ, and the bytes that hold it.
ghost use Rattle.std.specs.Prelude.{◌≡◌, false, ◌&&◌, ◌++◌, ℕ, ◌≤◌, ◌<◌, length, get_or, drop};
ghost use Rattle.records.specs.Finite.{has, least, table};
ghost use Rattle.types.specs.Bitmap.{byte_of};
ghost use Rattle.types.specs.Comparison.{type_limit, bitmap_bytes, below};

use crate::truth::push_bit;
use crate::type_data::TypeData;

// The smallest that is in both tables, below `size` (here and below a plain number: a type for its bound would be opened at
// each index).
pub fn find_first(
    alive: &[bool; TypeData::TYPES],
    differs: &[bool; TypeData::TYPES],
    size: usize,
) -> Option<usize>
    requires { size ≤ type_limit }
    ensures { result ≡ below (least (λ t. has alive.now t && get_or differs.now t false) size) size }
{
    (0..size).find(|&t| alive[t] && differs[t])
}

// Byte n of the bitmap, built from its top bit. (The words of a plan are built so, too, from other bits: a closure for these
// would be no shorter.)
fn byte_of(alive: &[bool; TypeData::TYPES], n: usize) -> u8
    requires { n < bitmap_bytes }
    ensures { result ≡ byte_of alive.now n }
{
    let start = 8 * n;
    let mut byte = 0;
    for j in (0..8).rev() {
        byte = push_bit(byte, alive[start + j]);
    }
    byte as u8
}

// Writes the bytes before `end`.
fn write_types(alive: &[bool; TypeData::TYPES], end: usize, lent: &mut [u8])
    requires end_le_bitmap_bytes { end ≤ bitmap_bytes }
    requires bitmap_bytes_in_bounds { bitmap_bytes ≤ length lent.old }
    ensures { lent.new ≡ table end (byte_of alive.now) ++ drop end lent.old }
{
    for n in 0..end {
        lent[n] = byte_of(alive, n);
    }
}

// Writes the bitmap of the types below `size` into the first bytes of what is lent: the bytes that hold types, then zeros.
pub fn write_bitmap(alive: &[bool; TypeData::TYPES], size: usize, lent: &mut [u8])
    requires size_le_type_limit { size ≤ type_limit }
    requires by_index { (t : ℕ) → size ≤ t → has alive.now t ≡ false }
    requires bitmap_bytes_in_bounds { bitmap_bytes ≤ length lent.old }
    ensures { lent.new
        ≡ table bitmap_bytes (byte_of alive.now) ++ drop bitmap_bytes lent.old }
{
    let end = (size + 7) / 8;
    write_types(alive, end, lent);
    lent[end..TypeData::BYTES].fill(0);
}
