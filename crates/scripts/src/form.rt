// The form of a script: rows 10 and 13 to 19 of the table of refusals, each a check of its own.
ghost use Rattle.std.specs.Prelude.{◌≡◌, ◌-◌};
ghost use Rattle.records.specs.Refusals.{answered};
ghost use Rattle.columns.specs.Columns.{Query};
ghost use Rattle.scripts.specs.Format.{entries, query_in, applied, extension_of, line_of};
ghost use Rattle.scripts.specs.Form.{header_fits, query_terms_check, kind_fits, unused_fits, earlier_term, is_function};
ghost use Rattle.scripts.specs.Form.{term_fits, function_fits, x_fits, y_fits, extension_fits, line_fits};
ghost use Rattle.scripts.specs.Form.{entry_check, entries_check, form_check};
ghost use Rattle.records.specs.Outcome.{in_turn};
ghost use Rattle.records.specs.Finite.{all_zero};
ghost use Rattle.scripts.specs.Code.Ready.{Begun};

use crate::entry::{Entry, EntryKind, Placed};
use columns::vocabulary::Vocabulary;
use records::fields::Record;
use records::layout::{Layout, check_links};
use records::refusals::{Refusal, Row, require};
use types::check_term;

fn are_zero(words: &[u16]) -> bool
    ensures { result ≡ all_zero words.now }
{
    words.iter().all(|w| *w == 0)
}

// Row 14: the header.
fn header_fits(e: Entry) -> bool
    ensures { result ≡ header_fits e }
{
    e.w0 == Entry::HEADER && are_zero(&[e.w4, e.w5, e.w6, e.w7])
}

// Row 10: the query's terms.
fn check_query(v: &[u8], header: Entry) -> Result<(), Refusal>
    ensures { answered result ≡ query_terms_check v.now (query_in header) }
{
    check_term(v, usize::from(header.w1))?;
    check_term(v, usize::from(header.w2))
}

// Row 15: the kind.
fn kind_fits(e: Entry) -> bool
    ensures { result ≡ kind_fits e }
{
    e.kind().is_some()
}

// Row 16: the words that a record of its kind does not use.
#[tactic(auto, unfolding(crate::specs::Format::kind_of))]
fn unused_fits(e: Entry) -> bool
    ensures { result ≡ unused_fits e }
{
    match e.kind() {
        Some(EntryKind::Constant) => are_zero(&[e.w1, e.w2, e.w3, e.w4, e.w5, e.w6, e.w7]),
        Some(EntryKind::Term) => are_zero(&[e.w3, e.w4, e.w5, e.w6, e.w7]),
        Some(EntryKind::Start | EntryKind::Reduction) => are_zero(&[e.w2, e.w3, e.w4, e.w5, e.w6]),
        Some(EntryKind::Extension) => e.w6 == 0,
        None => true,
    }
}

// Whether record f of the vocabulary has a function.
fn is_function(v: &[u8], f: u16) -> bool
    ensures { result ≡ is_function v.now f }
{
    let at = usize::from(f);
    at < v.len() / Record::SIZE && Record::read_at(v, at).is_restriction()
}

impl Placed<'_> {
    // Whether t is an earlier term record.
    fn is_earlier_term(&self, t: u16) -> bool
        ensures { result ≡ earlier_term self.now.script.now self.now.number t }
    {
        let at = usize::from(t);
        at < self.number && Entry::read_at(self.script, at).is_term()
    }

    // Whether a function's term has one, of an earlier term.
    fn function_fits(&self, v: &[u8]) -> bool
        ensures { result ≡ function_fits v.now self.now.script.now self.now.number (applied self.now.entry.w1 self.now.entry.w2) }
    {
        is_function(v, self.entry.w1) && self.is_earlier_term(self.entry.w2)
    }

    // Row 17: the term rule; record 1 and no other is the constant.
    #[tactic(auto, unfolding(crate::specs::Format::kind_of))]
    fn term_fits(&self, v: &[u8]) -> bool
        ensures { result ≡ term_fits v.now self.now.script.now self.now.number (line_of self.now.entry) }
    {
        let first = self.number == 1;
        match self.entry.kind() {
            Some(EntryKind::Constant) => first,
            Some(EntryKind::Term) => !first && self.function_fits(v),
            _ => !first,
        }
    }

    fn x_fits(&self) -> bool
        ensures { result ≡ x_fits self.now.script.now self.now.number self.now.entry.w1 self.now.entry.w3 }
    {
        self.is_earlier_term(self.entry.w3) && (self.entry.w1 != 0 || self.entry.w3 == 1)
    }

    // (`y_fits` of specs/Form is told so, too.)
    fn y_fits(&self, taken: bool) -> bool
        ensures { result ≡ y_fits self.now.script.now self.now.number taken self.now.entry.w4 }
    {
        if taken {
            self.is_earlier_term(self.entry.w4)
        } else {
            self.entry.w4 == 0
        }
    }

    // What an extension names exists: the column and its position, the terms.
    fn extension_fits(&self, vocabulary: &Vocabulary) -> bool
        ensures { (q : Query) → result ≡ extension_fits vocabulary.now.bytes.now self.now.script.now self.now.number q
            (extension_of self.now.entry) }
    {
        let shape = vocabulary.column_shape(self.entry.w1, self.entry.w2);
        usize::from(self.entry.w5) < shape.size && self.x_fits() && self.y_fits(shape.y)
    }

    // Row 18: what a step names exists.
    #[tactic(auto, unfolding(crate::specs::Format::kind_of))]
    fn step_fits(&self, vocabulary: &Vocabulary) -> bool
        ensures { result ≡ line_fits vocabulary.now.bytes.now self.now.script.now self.now.number (line_of self.now.entry) }
    {
        match self.entry.kind() {
            Some(EntryKind::Start) => self.entry.w1 <= 1,
            Some(EntryKind::Extension) => self.extension_fits(vocabulary),
            _ => true,
        }
    }

    // Rows 15 to 18.
    #[tactic(auto, unfolding(crate::specs::Form::entry_check))]
    fn check(&self, vocabulary: &Vocabulary) -> Result<(), Refusal>
        ensures { answered result ≡ entry_check vocabulary.now.bytes.now self.now.script.now self.now.number }
    {
        let i = self.number;
        require(kind_fits(self.entry), Row::EntryKind, i)?;
        require(unused_fits(self.entry), Row::EntryUnused, i)?;
        require(self.term_fits(vocabulary.bytes), Row::EntryTerm, i)?;
        require(self.step_fits(vocabulary), Row::Step, i)
    }
}

#[tactic(auto, using(records::proofs::Laws::Checks::turns))]
fn check_each(vocabulary: &Vocabulary, s: &[u8]) -> Result<(), Refusal>
    ensures { answered result ≡ in_turn (entry_check vocabulary.now.bytes.now s.now) 1 (entries s.now - 1) }
{
    for i in 1..s.len() / Entry::SIZE {
        Placed::at(s, i).check(vocabulary)?;
    }
    Ok(())
}

// Each script record in turn; row 17 first, where record 1 is absent.
fn check_entries(vocabulary: &Vocabulary, s: &[u8]) -> Result<(), Refusal>
    ensures { answered result ≡ entries_check vocabulary.now.bytes.now s.now }
{
    require(1 < s.len() / Entry::SIZE, Row::EntryTerm, 1)?;
    check_each(vocabulary, s)
}

// The rows after 13: 14, 10 and 15 to 19, at a script whose header was read. Row 19: the header's w3, the first step, then each
// step's next, on the chain or off it.
#[tactic(auto, unfolding(crate::specs::Form::form_check, crate::specs::Form::link_check))]
pub fn check_form(vocabulary: &Vocabulary, s: &[u8], header: Entry) -> Result<(), Refusal>
    requires { Begun vocabulary.now.bytes.now s.now header }
    ensures { answered result ≡ form_check vocabulary.now.bytes.now s.now }
{
    require(header_fits(header), Row::ScriptHeader, 0)?;
    check_query(vocabulary.bytes, header)?;
    check_entries(vocabulary, s)?;
    check_links::<Entry>(s, header.w3, Row::StepLink)
}
