// A list of the types that are left, in fixed memory, in no order: no round looks at any other type.
ghost use Rattle.std.specs.Prelude.{◌≡◌, ℕ, ◌≤◌, ◌<◌, List, [], ◌∷◌, ◌++◌, length, take, swap_remove};
ghost use Rattle.types.specs.Comparison.{type_limit};

use crate::type_data::TypeData;
use std::marker::Model;

#[derive(Drop)]
pub struct Remaining {
    types: [u16; TypeData::TYPES],
    left: usize,
}

impl Model for Remaining {
    ghost Value = { List ℕ };

    ghost view = { λ r. take r.left r.types };

    ghost invariant = { λ r. r.left ≤ type_limit };
}

impl Remaining {
    #[inline]
    pub fn new() -> Self
        ensures { result ≡ [] }
    {
        Remaining {
            types: [0; TypeData::TYPES],
            left: 0,
        }
    }

    #[inline]
    pub fn len(&self) -> usize
        ensures { result ≡ length self.now }
    {
        self.left
    }

    #[inline]
    pub fn as_slice(&self) -> &[u16]
        ensures { result.now ≡ self.now }
    {
        &self.types[..self.left]
    }

    #[inline]
    pub fn push(&mut self, t: u16)
        requires { length self.old < type_limit }
        ensures { self.new ≡ self.old ++ t ∷ [] }
    {
        self.types[self.left] = t;
        self.left += 1;
    }

    // The last takes the place of the one at j.
    #[inline]
    pub fn swap_remove(&mut self, j: usize)
        requires { j < length self.old }
        ensures { self.new ≡ swap_remove self.old j 0 }
    {
        self.left -= 1;
        self.types[j] = self.types[self.left];
    }
}
