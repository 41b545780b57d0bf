// Runs the calls of `records` over the vector file on standard input, and writes a line for each
// case: the answer of the vocabulary check, the answer of the record call, and the record's bytes.
// A case is the length of its vocabulary (two bytes), a record number (four bytes), both low byte
// first, and the vocabulary.
#![tactic(auto)]

ghost use Rattle.std.specs.Prelude.{◌≡◌, ◌++◌, OnOk};
ghost use Rattle.std.specs.Io.KnownBytes.{Appends};
ghost use Rattle.records.specs.Refusals.{answered};
ghost use Rattle.lent.specs.Told.{pair_bytes, quad_bytes};
ghost use Rattle.vocabulary_cases.specs.Lines.{Case, Fits, case_bytes, answer_text, byte_after, bytes_text, line_text};
ghost use Rattle.vocabulary_cases.specs.Lines.{case_line};

use lent::{Program, print_number, print_refusal, read_array, read_part, run_cases};
use records::refusals::Refusal;
use std::io;
use std::io::{BufReader, BufWriter, Read, Write};

// Writes 0 and the number that is answered, or the refusal and its place, and what follows these.
fn print_answer<W: Write>(
    out: &mut W,
    answer: Result<usize, Refusal>,
    after_refusal: u8,
) -> io::Result<()>
    ensures { OnOk result (Appends (W.contents out.old) (W.contents out.new)
        (answer_text (answered answer) after_refusal)) }
{
    match answer {
        Ok(number) => write!(out, "0 {number} "),
        Err(refusal) => print_refusal(out, refusal, after_refusal),
    }
}

// What is written after a byte when `left` bytes were left, itself included: after the last a line end.
fn after(left: usize) -> u8
    ensures { result ≡ byte_after left }
{
    if left == 1 { b'\n' } else { b' ' }
}

// Writes the bytes of a part on one line; nothing for an empty part.
fn print_bytes<W: Write>(out: &mut W, part: &[u8]) -> io::Result<()>
    ensures { OnOk result (Appends (W.contents out.old) (W.contents out.new) (bytes_text part.now)) }
{
    for (i, byte) in part.iter().enumerate() {
        print_number(out, u64::from(*byte), after(part.len() - i))?;
    }
    Ok(())
}

// Writes the line of a case.
fn print_case<W: Write>(out: &mut W, v: &[u8], number: u32) -> io::Result<()>
    ensures { OnOk result (Appends (W.contents out.old) (W.contents out.new) (line_text v.now number)) }
{
    print_answer(out, records::check_vocabulary(v), b' ')?;
    print_answer(out, records::find_record(v, number), b'\n')?;
    print_bytes(out, records::record(v, number))
}

// What stands before a vocabulary: its length, and a record number.
#[derive(Clone, Copy)]
struct Head {
    length: u16,
    number: u32,
}

impl From<[u8; 6]> for Head {
    ghost from_gives = { λ bytes head. pair_bytes head.length ++ quad_bytes head.number ≡ bytes };

    fn from(bytes: [u8; 6]) -> Self {
        Head {
            length: u16::from_le_bytes([bytes[0], bytes[1]]),
            number: u32::from_le_bytes([bytes[2], bytes[3], bytes[4], bytes[5]]),
        }
    }
}

// The cases that this program runs.
struct VocabularyCases;

impl Program for VocabularyCases {
    ghost Case = { Case };

    ghost Fits = { Fits };

    ghost bytes = { case_bytes };

    ghost line = { case_line };

    fn run_case<R: Read, W: Write>(input: &mut R, out: &mut W) -> io::Result<bool> {
        // The space first: behind the reading of the head it would be cleared twice.
        let mut space = [0u8; 8192];
        let Some(bytes) = read_array::<R, 6>(input)? else {
            return Ok(false);
        };
        let head = Head::from(bytes);
        let Some(v) = read_part(input, &mut space, usize::from(head.length))? else {
            return Ok(false);
        };
        print_case(out, v, head.number)?;
        Ok(true)
    }
}

// (In each program: only `main` is given the runtime.)
fn main(rt: HostRuntime) -> io::Result<()> {
    let mut input = BufReader::new(rt.alloc(), rt.reader())?;
    let mut out = BufWriter::new(rt.alloc(), io::writer(&rt))?;
    run_cases::<VocabularyCases, _, _>(&mut input, &mut out)
}
