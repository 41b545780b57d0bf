// Refusals: the row of the table of refusals that applies, and a place.
ghost use Rattle.std.specs.Prelude.{◌≡◌};
ghost use Rattle.records.specs.Outcome.{require};
ghost use Rattle.records.specs.Refusals.{answered, number_of};

// The rows of the table, those of each crate in their turn.
#[derive(Clone, Copy, Debug, PartialEq, Eq)]
pub enum Row {
    // The vocabulary check, and the record call.
    Length = 1,
    Header,
    Kind,
    Unused,
    Operand,
    Role,
    Label,
    Link,
    RecordNumber,
    // The comparison.
    QueryTerm,
    AtomLimit,
    SurvivorRoom,
    // The script check: the form, then the chain.
    ScriptLength,
    ScriptHeader,
    EntryKind,
    EntryUnused,
    EntryTerm,
    Step,
    StepLink,
    Start,
    Connection,
    Reduction,
    FrameLimit,
    FrameLeft,
    AllClosed,
    // The classification, the writer, and the vocabulary check of edition 2.
    TaxonomyRoom,
    RecordRoom,
    AtomsHeld,
}

impl Row {
    // Its number in the table. (No From: it would say no more.)
    pub fn number(self) -> u8
        ensures { result ≡ number_of self }
    {
        self as u8
    }
}

// "Every refusal gives number and place".
#[derive(Clone, Copy, Debug, PartialEq, Eq)]
pub struct Refusal {
    pub row: Row,
    pub place: usize,
}

// One row of the table: refused unless the condition for passing holds.
pub fn require(ok: bool, row: Row, place: usize) -> Result<(), Refusal>
    ensures { answered result ≡ require ok (number_of row) place }
{
    if ok {
        Ok(())
    } else {
        Err(Refusal { row, place })
    }
}
