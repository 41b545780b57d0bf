// The zeta transform of a table of words: each entry is joined to the words that have it within them.
ghost use Rattle.std.specs.Prelude.{◌≡◌, ℕ, ◌+◌, ◌*◌, ◌^◌, ◌≤◌, ◌<◌, length, get_or};
ghost use Rattle.types.specs.Code.Elimination.{between, Joined, ZetaStep, ZetaTo};
ghost use Rattle.types.specs.Comparison.{atom_limit, type_limit};

use crate::type_data::TypeData;

// Adds to each of `half` entries from `at + half` on the entry `half` places before it. (Numbers here and below: a type for
// their bounds would be opened at each index.)
fn join_block(joins: &mut [u16; TypeData::TYPES], at: usize, half: usize)
    requires { at + 2 * half ≤ type_limit }
    ensures { Joined (between (at + half) (at + 2 * half)) half joins.old joins.new }
{
    for x in at..at + half {
        joins[x + half] |= joins[x];
    }
}

// Adds to each word below `size` with bit n what stands at the word without it, block by block.
fn zeta_blocks(joins: &mut [u16; TypeData::TYPES], size: usize, n: usize)
    requires size_le_type_limit { size ≤ type_limit }
    requires n_lt_atom_limit { n < atom_limit }
    ensures { ZetaStep n size joins.old joins.new }
{
    let half = 1 << n;
    for at in (0..size).step_by(2 * half) {
        join_block(joins, at, half);
    }
}

// Adds to each word below `size` with bit n what stands at the word without it, word by word: for small n, where blocks
// are too short to pay. (The next word with bit n is found by an or: a `for` would test each word.)
fn zeta_near(joins: &mut [u16; TypeData::TYPES], size: usize, n: usize)
    requires size_le_type_limit { size ≤ type_limit }
    requires n_lt_atom_limit { n < atom_limit }
    ensures { ZetaStep n size joins.old joins.new }
{
    let half = 1 << n;
    let mut x = half;
    while x < size {
        joins[x] |= joins[x - half];
        x = (x + 1) | half;
    }
}

// Adds to each word below `size` with bit n what stands at the word without it.
fn zeta_bit(joins: &mut [u16; TypeData::TYPES], size: usize, n: usize)
    requires size_le_type_limit { size ≤ type_limit }
    requires n_lt_atom_limit { n < atom_limit }
    ensures { ZetaStep n size joins.old joins.new }
{
    if n < 4 {
        zeta_near(joins, size, n);
    } else {
        zeta_blocks(joins, size, n);
    }
}

// Then each word below 2^bits holds the or of all entries within it.
pub fn zeta_transform(joins: &mut [u16; TypeData::TYPES], bits: usize)
    requires { bits ≤ atom_limit }
    ensures { ZetaTo bits (2 ^ bits) joins.old joins.new }
{
    let size = 1 << bits;
    for n in 0..bits {
        zeta_bit(joins, size, n);
    }
}
