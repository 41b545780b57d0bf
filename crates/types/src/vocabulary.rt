// What a call goes on with after its checks.
ghost use Rattle.std.specs.Prelude.{◌≡◌, ◌≤◌, ◌<◌};
ghost use Rattle.records.specs.Check.{IsAccepted};
ghost use Rattle.records.specs.Format.{count};
ghost use Rattle.records.specs.Atoms.{atoms};
ghost use Rattle.types.specs.Types.{types};
ghost use Rattle.types.specs.Comparison.{atom_limit};

// An accepted vocabulary of k atoms, few enough that there is room for its types.
#[derive(Clone, Copy)]
pub struct SmallVocabulary<'a> {
    pub bytes: &'a [u8],
    pub k: usize,
    pub ghost accepted: { IsAccepted bytes.now },
    pub ghost few: { atoms bytes.now ≤ atom_limit },
    pub ghost counted: { k ≡ atoms bytes.now },
}

impl SmallVocabulary<'_> {
    // How many types there are.
    pub fn type_count(&self) -> usize
        ensures { result ≡ types self.now.bytes.now }
    {
        1 << self.k
    }
}

// Two records of such a vocabulary, whose truths are compared.
#[derive(Clone, Copy)]
pub struct Query<'a> {
    pub v: SmallVocabulary<'a>,
    pub a: usize,
    pub b: usize,
    pub ghost first: { a < count v.bytes.now },
    pub ghost second: { b < count v.bytes.now },
}
