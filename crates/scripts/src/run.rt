// Along the chain: rows 20 to 25 of the table of refusals.
ghost use Rattle.std.specs.Prelude.{◌≡◌, [], ◌∷◌, List, ℕ, ◌*◌, ◌≤◌, ◌<◌, Ok, length};
ghost use Rattle.columns.specs.Code.Kept.{literals};
ghost use Rattle.records.specs.Refusals.{answered};
ghost use Rattle.scripts.specs.Format.{entry_at, query_of, entries, entry_limit, extension_of};
ghost use Rattle.records.specs.Outcome.{pass};
ghost use Rattle.scripts.specs.Form.{form_check};
ghost use Rattle.scripts.specs.Code.Codes.{opposed};
ghost use Rattle.scripts.specs.Code.Index.{TermsBefore, AllNumbered, link_count, Blank};
ghost use Rattle.scripts.specs.Code.Numbered.{start_numbers, used_numbers};
ghost use Rattle.scripts.specs.Code.Tested.{extension_check, extended, reduces_to, check_at, stepped_at};
ghost use Rattle.scripts.specs.Code.Tested.{start_outcome, chain_outcome};
ghost use Rattle.scripts.specs.Code.Ready.{Ready, IsStart, IsRead, IsExtension};

use crate::entry::{Entry, EntryKind, StepRecord};
use crate::index::{ALL_LINKS, FEW, FEW_LINKS, Index, code_in, code_of, find_end, origin_in};
use crate::machine::{Machine, take_out};
use columns::column::{Column, Terms};
use columns::query::Query;
use columns::vocabulary::Vocabulary;
use records::layout::Layout;
use records::refusals::{Refusal, Row, require};

// What the steps of a chain are run over: a script that keeps the form over a vocabulary, its query, and its terms' numbers.
#[derive(Clone, Copy)]
struct Chain<'a> {
    vocabulary: Vocabulary<'a>,
    script: &'a [u8],
    query: Query,
    terms: &'a [u32],
    ghost form: { form_check vocabulary.bytes.now script.now ≡ pass },
    ghost asked: { query ≡ query_of script.now },
    ghost numbered: { AllNumbered script.now terms.now },
}

// Whether two literals are complements.
fn is_opposed(l: u64, m: u64) -> bool
    ensures { result ≡ opposed l m }
{
    l / 2 == m / 2 && l != m
}

// Row 22: whether the goal of the frame that a reduction names is the complement.
fn reduces(machine: &Machine, frame: u16) -> bool
    requires { 0 < length machine.now }
    ensures { result ≡ reduces_to machine.now frame }
{
    let goal = machine.goal();
    machine
        .goal_below(frame)
        .is_some_and(|lower| is_opposed(lower, goal))
}

// An extension by a column: rows 21 and 23, then the frames.
fn extend(machine: &mut Machine, column: Column, step: StepRecord) -> Result<(), Refusal>
    requires listed { step.entry.w5 < length (literals column) }
    requires open { 0 < length machine.old }
    ensures rows { answered result ≡ extension_check (literals column) step.entry.w5 step.number machine.old }
    ensures extended { result ≡ Ok tt → machine.new ≡ extended (literals column) step.entry.w5 machine.old }
{
    let i = step.number;
    let (connected, others) = take_out(column, step.entry.w5 as usize);
    require(is_opposed(connected, machine.goal()), Row::Connection, i)?;
    require(others.is_none() || machine.has_room(), Row::FrameLimit, i)?;
    machine.extend(others);
    Ok(())
}

// The machine after a start, whose record e is: the literal of its query column is frame 0.
fn begin(query: Query, e: Entry) -> Machine
    requires { e.w1 ≤ 1 }
    ensures { (v s : List ℕ) → query ≡ query_of s → result ≡ start_numbers v s e.w1 ∷ [] }
{
    let (goal, _) = take_out(query.column(e.w1), 0);
    Machine::start(goal)
}

impl Chain<'_> {
    // The column that an extension uses, at its terms.
    fn used_column(&self, step: StepRecord) -> Column
        requires { IsExtension self.now.script.now step }
        ensures { literals result ≡ used_numbers self.now.vocabulary.bytes.now self.now.script.now (extension_of step.entry) }
    {
        let e = step.entry;
        let x = code_in(self.terms, e.w3 as usize);
        let y = code_in(self.terms, e.w4 as usize);
        let fx = code_of(e.w1, origin_in(self.terms, e.w3 as usize));
        self.vocabulary
            .find_column(self.query, e.w1, e.w2, Terms { x, y, fx })
    }

    // One step of the chain, after the first: rows 25, 20, 21, 22, 23, then the frames.
    fn make_step(&self, step: StepRecord, machine: &mut Machine) -> Result<(), Refusal>
        requires { IsRead self.now.script.now step }
        ensures rows { answered result ≡ check_at self.now.vocabulary.bytes.now self.now.script.now step.number machine.old }
        ensures stepped { result ≡ Ok tt
            → machine.new ≡ stepped_at self.now.vocabulary.bytes.now self.now.script.now step.number machine.old }
    {
        let i = step.number;
        require(!machine.is_closed(), Row::AllClosed, i)?;
        match step.entry.kind() {
            Some(EntryKind::Extension) => extend(machine, self.used_column(step), step),
            Some(EntryKind::Reduction) => {
                require(reduces(machine, step.entry.w1), Row::Reduction, i)?;
                machine.close();
                Ok(())
            }
            _ => Err(Refusal {
                row: Row::Start,
                place: i,
            }),
        }
    }

    // A start, record `first`, and the steps after it: how many they are.
    fn run_steps(&self, first: usize) -> Result<usize, Refusal>
        requires { IsStart self.now.script.now first }
        ensures { answered result ≡ start_outcome self.now.vocabulary.bytes.now self.now.script.now first }
    {
        let start = Entry::read_at(self.script, first);
        let mut machine = begin(self.query, start);
        let mut last = first;
        let mut at = start.w7 as usize;
        let mut steps = 1;
        // The chain leads the walk, and each turn the machine: no range.
        while at != 0 {
            let step = StepRecord {
                number: at,
                entry: Entry::read_at(self.script, at),
            };
            self.make_step(step, &mut machine)?;
            last = at;
            steps += 1;
            at = step.entry.w7 as usize;
        }
        require(machine.is_closed(), Row::FrameLeft, last)?;
        Ok(steps)
    }
}

// Numbers the terms, in tables that are lent, then runs the steps. One function for both sizes takes fewer instructions.
// (It asks what `run_in_tables` asks, which hands it on.)
fn run_numbering(
    vocabulary: &Vocabulary,
    s: &[u8],
    end: usize,
    first: usize,
    links: &mut [u16],
    terms: &mut [u32],
) -> Result<usize, Refusal>
    requires ready { Ready vocabulary.now.bytes.now s.now (entry_at s.now 0) }
    requires start { IsStart s.now first }
    requires terms_before { TermsBefore s.now end }
    requires end_bound { end ≤ entries s.now }
    requires blank { Blank s.now links.old terms.old }
    ensures { answered result ≡ start_outcome vocabulary.now.bytes.now s.now first }
{
    let mut index = Index { links, terms };
    index.number_all(s, end);
    // Read again: kept until here, its words would take registers from the loops of the form.
    let header = Entry::read_at(s, 0);
    let chain = Chain {
        vocabulary: *vocabulary,
        script: s,
        query: Query {
            a: header.w1,
            b: header.w2,
        },
        terms: index.terms,
    };
    chain.run_steps(first)
}

// Does so in tables for so many records: to zero those for all takes as long as a small call.
fn run_in_tables<const RECORDS: usize, const LINKS: usize>(
    vocabulary: &Vocabulary,
    s: &[u8],
    end: usize,
    first: usize,
) -> Result<usize, Refusal>
    requires ready { Ready vocabulary.now.bytes.now s.now (entry_at s.now 0) }
    requires start { IsStart s.now first }
    requires terms_before { TermsBefore s.now end }
    requires end_bound { end ≤ entries s.now }
    requires room { end ≤ RECORDS }
    requires some { 1 < RECORDS }
    requires few { RECORDS ≤ entry_limit }
    requires size { LINKS ≡ link_count * RECORDS }
    ensures { answered result ≡ start_outcome vocabulary.now.bytes.now s.now first }
{
    let mut links = [0; LINKS];
    let mut terms = [0; RECORDS];
    run_numbering(vocabulary, s, end, first, &mut links, &mut terms)
}

// The chain: its first step is a start, the others follow. How many steps there are.
pub fn check_chain(vocabulary: &Vocabulary, s: &[u8], header: Entry) -> Result<usize, Refusal>
    requires { Ready vocabulary.now.bytes.now s.now header }
    ensures { answered result ≡ chain_outcome vocabulary.now.bytes.now s.now }
{
    let first = header.w3 as usize;
    require(first != 0, Row::Start, 0)?;
    require(
        Entry::read_at(s, first).kind() == Some(EntryKind::Start),
        Row::Start,
        first,
    )?;
    let end = find_end(s);
    if end <= FEW {
        return run_in_tables::<{ FEW }, { FEW_LINKS }>(vocabulary, s, end, first);
    }
    run_in_tables::<{ Entry::LIMIT }, { ALL_LINKS }>(vocabulary, s, end, first)
}
