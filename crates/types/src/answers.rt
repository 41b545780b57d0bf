// The answer of the comparison. `specs/Answers.antt` says which verdict of paper 01 it stands for.
ghost use Rattle.std.specs.Prelude.{◌≡◌};
ghost use Rattle.types.specs.Answers.{verdict_of};
ghost use Rattle.types.specs.Comparison.{verdict_with};

// The number of survivors and of rounds that removed something.
#[derive(Clone, Copy, Debug, PartialEq, Eq)]
pub struct Counts {
    pub survivors: usize,
    pub rounds: usize,
}

// With either answer go both. (An enum of its own: the paper's two verdicts have names.)
#[derive(Clone, Copy, Debug, PartialEq, Eq)]
pub enum Compared {
    Equal(Counts),
    Different { element: usize, counts: Counts },
}

// The verdict: Different where there is a survivor at which the terms differ.
pub fn conclude(element: Option<usize>, counts: Counts) -> Compared
    ensures { verdict_of result ≡ verdict_with element counts }
{
    match element {
        Some(element) => Compared::Different { element, counts },
        None => Compared::Equal(counts),
    }
}
