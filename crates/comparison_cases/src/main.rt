// Runs the comparison of `types` over the cases on standard input, and writes a line for each: the
// answer, the survivors as they stand in the lent bytes, and two sums over all of these.
// A case is the length of its vocabulary (two bytes), the two term numbers (four bytes each), the
// number of bytes lent (two bytes), all low byte first, the seed of what they hold (a byte), and the
// vocabulary.
#![tactic(auto)]

ghost use Rattle.std.specs.Prelude.{◌≡◌, [], ◌∷◌, ◌++◌, length, OnOk};
ghost use Rattle.std.specs.Io.KnownBytes.{Appends};
ghost use Rattle.types.specs.Answers.{compared};
ghost use Rattle.lent.specs.Told.{pair_bytes, quad_bytes};
ghost use Rattle.comparison_cases.specs.Lines.{Case, Fits, case_bytes, answer_text, line_text, case_line};

use lent::{
    Program, fill, print_refusal, print_sums, print_written, read_array, read_part, run_cases,
};
use records::refusals::Refusal;
use std::io;
use std::io::{BufReader, BufWriter, Read, Write};
use types::answers::Compared;

// The bytes that the survivors take.
const WRITTEN: usize = 512;

// Writes the answer's word and its numbers.
fn print_answer<W: Write>(out: &mut W, answer: Result<Compared, Refusal>) -> io::Result<()>
    ensures { OnOk result (Appends (W.contents out.old) (W.contents out.new) (answer_text (compared answer))) }
{
    match answer {
        Ok(Compared::Equal(counts)) => {
            write!(out, "equal {} {} ", counts.survivors, counts.rounds)
        }
        Ok(Compared::Different { element, counts }) => {
            write!(
                out,
                "different {element} {} {} ",
                counts.survivors, counts.rounds
            )
        }
        Err(refusal) => {
            out.write_all(b"refused ")?;
            print_refusal(out, refusal, b' ')
        }
    }
}

// What stands before a vocabulary: its length, the two terms, the number of bytes lent, and their seed.
#[derive(Clone, Copy)]
struct Head {
    length: u16,
    a: u32,
    b: u32,
    lent: u16,
    seed: u8,
}

impl From<[u8; 13]> for Head {
    ghost from_gives = { λ bytes head. pair_bytes head.length ++ quad_bytes head.a ++ quad_bytes head.b ++ pair_bytes head.lent
        ++ head.seed ∷ [] ≡ bytes };

    fn from(bytes: [u8; 13]) -> Self {
        Head {
            length: u16::from_le_bytes([bytes[0], bytes[1]]),
            a: u32::from_le_bytes([bytes[2], bytes[3], bytes[4], bytes[5]]),
            b: u32::from_le_bytes([bytes[6], bytes[7], bytes[8], bytes[9]]),
            lent: u16::from_le_bytes([bytes[10], bytes[11]]),
            seed: bytes[12],
        }
    }
}

// Fills the lent bytes, compares, and writes the line of the case.
fn print_case<W: Write>(out: &mut W, v: &[u8], head: Head, buffer: &mut [u8]) -> io::Result<()>
    ensures { OnOk result (Appends (W.contents out.old) (W.contents out.new)
        (line_text v.now head.a head.b (length buffer.old) head.seed)) }
{
    fill(buffer, head.seed);
    let answer = types::compare(v, head.a, head.b, buffer);
    print_answer(out, answer)?;
    if answer.is_ok() {
        print_written(out, buffer, WRITTEN)?;
    }
    print_sums(out, buffer, b'\n')
}

// The cases that this program runs.
struct ComparisonCases;

impl Program for ComparisonCases {
    ghost Case = { Case };

    ghost Fits = { Fits };

    ghost bytes = { case_bytes };

    ghost line = { case_line };

    fn run_case<R: Read, W: Write>(input: &mut R, out: &mut W) -> io::Result<bool> {
        // The spaces first: behind the reading of the head they would be cleared twice.
        let mut space = [0u8; 8192];
        let mut lent = [0u8; 1024];
        let Some(bytes) = read_array::<R, 13>(input)? else {
            return Ok(false);
        };
        let head = Head::from(bytes);
        let Some(v) = read_part(input, &mut space, usize::from(head.length))? else {
            return Ok(false);
        };
        let Some(buffer) = lent.get_mut(..usize::from(head.lent)) else {
            return Ok(false);
        };
        print_case(out, v, head, buffer)?;
        Ok(true)
    }
}

// (In each program: only `main` is given the runtime.)
fn main(rt: HostRuntime) -> io::Result<()> {
    let mut input = BufReader::new(rt.alloc(), rt.reader())?;
    let mut out = BufWriter::new(rt.alloc(), io::writer(&rt))?;
    run_cases::<ComparisonCases, _, _>(&mut input, &mut out)
}
