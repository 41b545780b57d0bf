// Literals as numbers (specs/Code/Packed.antt), so that one comparison tells whether two are complements.
ghost use Rattle.std.specs.Prelude.{◌≡◌, ◌<◌};
ghost use Rattle.columns.specs.Literals.{concept, role};
ghost use Rattle.columns.specs.Code.Packed.{packed, term_limit};

// Whether the element of a term is in term `number` of the vocabulary.
pub fn pack_concept(positive: bool, number: u16, term: u32) -> u64
    ensures { result ≡ packed (concept positive number term) }
{
    u64::from(positive) + 2 * (2 * u64::from(number) + 1) + 4096 * u64::from(term)
}

// Whether the elements of two terms are joined by a role.
pub fn pack_role(positive: bool, number: u16, from: u32, to: u32) -> u64
    requires from_lt_term_limit { from < term_limit }
    requires to_lt_term_limit { to < term_limit }
    ensures { result ≡ packed (role positive number from to) }
{
    u64::from(positive)
        + 2 * (2 * u64::from(number) + 2)
        + 4096 * u64::from(from)
        + 4294967296 * u64::from(to)
}
