// Runs the classification of `taxonomy` over the cases on standard input, and writes a line for each: the answer, the
// survivors and the taxonomy as they stand in the lent bytes, and two sums over all bytes of each.
// A case is the length of its vocabulary, the number of bytes lent for the survivors and the number lent for the taxonomy
// (two bytes each, low byte first), the seed of what both hold (a byte), and the vocabulary. Where the bytes for the survivors
// begin with the seed, those for the taxonomy begin with 255 less it, so that bytes taken from the wrong buffer show.
#![tactic(auto)]

ghost use Rattle.std.specs.Prelude.{◌≡◌, ◌-◌, [], ◌∷◌, ◌++◌, length, OnOk};
ghost use Rattle.std.specs.Io.KnownBytes.{Appends};
ghost use Rattle.records.specs.Refusals.{answered};
ghost use Rattle.lent.specs.Told.{pair_bytes, filled};
ghost use Rattle.classification_cases.specs.Lines.{Case, Fits, case_bytes, answer_text, lent_text, line_text, case_line};

use lent::{
    Program, fill, print_refusal, print_sums, print_written, read_array, read_part, run_cases,
};
use records::refusals::Refusal;
use std::io;
use std::io::{BufReader, BufWriter, Read, Write};
use types::answers::Counts;

// The bytes that the survivors take, and those that the taxonomy takes.
const SURVIVORS: usize = 512;

const TAXONOMY: usize = 144;

// Writes the answer's word and its numbers.
fn print_answer<W: Write>(out: &mut W, answer: Result<Counts, Refusal>) -> io::Result<()>
    ensures { OnOk result (Appends (W.contents out.old) (W.contents out.new) (answer_text (answered answer))) }
{
    match answer {
        Ok(counts) => write!(out, "counts {} {} ", counts.survivors, counts.rounds),
        Err(refusal) => {
            out.write_all(b"refused ")?;
            print_refusal(out, refusal, b' ')
        }
    }
}

// What stands before a vocabulary: its length, the bytes lent for the survivors and for the taxonomy, and their seed.
#[derive(Clone, Copy)]
struct Head {
    length: u16,
    first: u16,
    second: u16,
    seed: u8,
}

impl From<[u8; 7]> for Head {
    ghost from_gives = { λ bytes head. pair_bytes head.length ++ pair_bytes head.first ++ pair_bytes head.second ++ head.seed ∷ []
        ≡ bytes };

    fn from(bytes: [u8; 7]) -> Self {
        Head {
            length: u16::from_le_bytes([bytes[0], bytes[1]]),
            first: u16::from_le_bytes([bytes[2], bytes[3]]),
            second: u16::from_le_bytes([bytes[4], bytes[5]]),
            seed: bytes[6],
        }
    }
}

// Writes the answer, what stands in the lent bytes, but after a refusal, and the sums over these.
fn print_outcome<W: Write>(
    out: &mut W,
    answer: Result<Counts, Refusal>,
    survivors: &[u8],
    taxonomy: &[u8],
) -> io::Result<()>
    ensures { OnOk result (Appends (W.contents out.old) (W.contents out.new)
        (answer_text (answered answer) ++ lent_text (answered answer) survivors.now taxonomy.now)) }
{
    print_answer(out, answer)?;
    if answer.is_ok() {
        print_written(out, survivors, SURVIVORS)?;
        print_written(out, taxonomy, TAXONOMY)?;
    }
    print_sums(out, survivors, b' ')?;
    print_sums(out, taxonomy, b'\n')
}

// Fills the lent bytes, classifies, and writes the line of the case.
fn print_case<W: Write>(
    out: &mut W,
    v: &[u8],
    survivors: &mut [u8],
    taxonomy: &mut [u8],
    seed: u8,
) -> io::Result<()>
    ensures { OnOk result (Appends (W.contents out.old) (W.contents out.new)
        (line_text v.now (filled (length survivors.old) seed) (filled (length taxonomy.old) (255 - seed)))) }
{
    fill(survivors, seed);
    fill(taxonomy, 255 - seed);
    let answer = taxonomy::classify(v, survivors, taxonomy);
    print_outcome(out, answer, survivors, taxonomy)
}

// The cases that this program runs.
struct ClassificationCases;

impl Program for ClassificationCases {
    ghost Case = { Case };

    ghost Fits = { Fits };

    ghost bytes = { case_bytes };

    ghost line = { case_line };

    fn run_case<R: Read, W: Write>(input: &mut R, out: &mut W) -> io::Result<bool> {
        // The spaces first: behind the reading of the head they would be cleared twice.
        let mut space = [0u8; 8192];
        let mut first = [0u8; 1024];
        let mut second = [0u8; 1024];
        let Some(bytes) = read_array::<R, 7>(input)? else {
            return Ok(false);
        };
        let head = Head::from(bytes);
        let Some(v) = read_part(input, &mut space, usize::from(head.length))? else {
            return Ok(false);
        };
        let Some(survivors) = first.get_mut(..usize::from(head.first)) else {
            return Ok(false);
        };
        let Some(taxonomy) = second.get_mut(..usize::from(head.second)) else {
            return Ok(false);
        };
        print_case(out, v, survivors, taxonomy, head.seed)?;
        Ok(true)
    }
}

// (In each program: only `main` is given the runtime.)
fn main(rt: HostRuntime) -> io::Result<()> {
    let mut input = BufReader::new(rt.alloc(), rt.reader())?;
    let mut out = BufWriter::new(rt.alloc(), io::writer(&rt))?;
    run_cases::<ClassificationCases, _, _>(&mut input, &mut out)
}
