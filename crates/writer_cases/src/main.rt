// Runs the calls of `writer` over the cases on standard input, and writes a line for each: the answer, the bytes of the buffer
// that changed, and two sums over all of them.
// A case is the length of what its buffer begins with, the number of bytes lent behind that (two bytes each), the seed of
// what these hold (a byte), the call (a byte: 0 makes a vocabulary, 1 adds a term, 2 a statement), the kind (a byte), A and B
// (two bytes each; one number, the role count, where a vocabulary is made), the length in use (eight bytes), all low byte
// first, and what the buffer begins with.
#![tactic(auto)]

ghost use Rattle.std.specs.Prelude.{◌≡◌, ◌<◌, ◌≤◌, ◌==◌, not, List, ℕ, [], ◌∷◌, ◌++◌, length, drop, IfOk, OnOk, IfSome};
ghost use Rattle.std.specs.Prelude.{MatchBool};
ghost use Rattle.std.specs.Io.KnownBytes.{Appends, Consumes};
ghost use Rattle.records.specs.Refusals.{answered};
ghost use Rattle.writer.specs.Calls.{new_length, buffer_after};
ghost use Rattle.lent.specs.Told.{pair_bytes, filled};
ghost use Rattle.writer_cases.specs.Lines.{Case, Fits, eight_bytes, case_bytes, answer_text, place_text, end_text, changes_text};
ghost use Rattle.writer_cases.specs.Lines.{called, line_text, case_line};

use lent::{
    Program, fill, print_hex, print_number, print_refusal, print_sums, read_array, read_full,
    run_cases,
};
use records::refusals::Refusal;
use std::io;
use std::io::{BufReader, BufWriter, Read, Write};

// Writes the answer's word and its numbers.
fn print_answer<W: Write>(out: &mut W, answer: Result<usize, Refusal>) -> io::Result<()>
    ensures { OnOk result (Appends (W.contents out.old) (W.contents out.new) (answer_text (answered answer))) }
{
    match answer {
        Ok(length) => write!(out, "length {length} "),
        Err(refusal) => {
            out.write_all(b"refused ")?;
            print_refusal(out, refusal, b' ')
        }
    }
}

// Writes a byte that changed, after its place where the byte before it did not change; where it did not change itself, ends
// what was written before it. Answers whether it changed. (The flag is that of `place_text`.)
fn print_place<W: Write>(
    out: &mut W,
    place: usize,
    old: u8,
    new: u8,
    inside: bool,
) -> io::Result<bool>
    ensures changed { IfOk result (λ changed. changed ≡ not (old == new)) }
    ensures text { OnOk result (Appends (W.contents out.old) (W.contents out.new) (place_text place old new inside)) }
{
    if old == new {
        if inside {
            out.write_all(b" ")?;
        }
        return Ok(false);
    }
    if !inside {
        print_number(out, place as u64, b':')?;
    }
    print_hex(out, new)?;
    Ok(true)
}

// Ends what is written of the bytes that changed: with a dash where none did, and a space where the last byte did or none.
// (The flags are those of `end_text`.)
fn end_changes<W: Write>(out: &mut W, none: bool, inside: bool) -> io::Result<()>
    ensures { OnOk result (Appends (W.contents out.old) (W.contents out.new) (end_text none inside)) }
{
    if none {
        out.write_all(b"- ")?;
    }
    if inside {
        out.write_all(b" ")?;
    }
    Ok(())
}

// Writes the bytes that changed, each row of them after its place, or a dash where none did.
fn print_changes<W: Write>(out: &mut W, before: &[u8], after: &[u8]) -> io::Result<()>
    ensures { OnOk result (Appends (W.contents out.old) (W.contents out.new) (changes_text before.now after.now)) }
{
    let mut none = true;
    let mut inside = false;
    for i in 0..before.len().min(after.len()) {
        inside = print_place(out, i, before[i], after[i], inside)?;
        none = none && !inside;
    }
    end_changes(out, none, inside)
}

// What stands before what a buffer begins with: its length, the bytes lent behind it, their seed, the call, the length in use.
#[derive(Clone, Copy)]
struct Head {
    length: u16,
    lent: u16,
    seed: u8,
    call: u8,
    kind: u8,
    a: u16,
    b: u16,
    used: u64,
}

impl From<[u8; 19]> for Head {
    ghost from_gives = { λ bytes head. pair_bytes head.length ++ pair_bytes head.lent ++ (head.seed ∷ head.call ∷ head.kind ∷ [])
        ++ pair_bytes head.a ++ pair_bytes head.b ++ eight_bytes head.used ≡ bytes };

    fn from(bytes: [u8; 19]) -> Self {
        Head {
            length: u16::from_le_bytes([bytes[0], bytes[1]]),
            lent: u16::from_le_bytes([bytes[2], bytes[3]]),
            seed: bytes[4],
            call: bytes[5],
            kind: bytes[6],
            a: u16::from_le_bytes([bytes[7], bytes[8]]),
            b: u16::from_le_bytes([bytes[9], bytes[10]]),
            used: u64::from_le_bytes([
                bytes[11], bytes[12], bytes[13], bytes[14], bytes[15], bytes[16], bytes[17],
                bytes[18],
            ]),
        }
    }
}

// Makes a call.
fn write(buffer: &mut [u8], head: Head) -> Result<usize, Refusal>
    ensures result_value { answered result ≡ new_length (called buffer.old head.used head.call head.kind head.a head.b) }
    ensures after { buffer.new ≡ buffer_after (called buffer.old head.used head.call head.kind head.a head.b) buffer.old }
{
    let used = head.used as usize;
    // The stored cases have the number, and the role count in two; whatever is neither 0 nor 1 asks for a statement,
    // so an enum would say no more.
    match head.call {
        0 => writer::make_vocabulary(buffer, u32::from(head.a) + 65536 * u32::from(head.b)),
        1 => writer::add_term(buffer, used, head.kind, head.a, head.b),
        _ => writer::add_statement(buffer, used, head.a, head.b),
    }
}

// Makes a call in a buffer that holds what stands before it in another, and writes the line of the case.
fn print_case<W: Write>(out: &mut W, before: &[u8], buffer: &mut [u8], head: Head) -> io::Result<()>
    ensures { OnOk result (Appends (W.contents out.old) (W.contents out.new)
        (line_text before.now buffer.old (called buffer.old head.used head.call head.kind head.a head.b))) }
{
    let answer = write(buffer, head);
    print_answer(out, answer)?;
    print_changes(out, before, buffer)?;
    print_sums(out, buffer, b'\n')
}

// Fills the space, and reads what the buffer begins with. Answers whether it stood there whole.
fn read_beginning<R: Read>(input: &mut R, space: &mut [u8], size: u16, seed: u8) -> io::Result<bool>
    ensures { IfOk result (λ whole. MatchBool whole
        ((bytes : List ℕ) × (length bytes ≡ size) × (size ≤ length space.new)
        × Consumes (R.remaining input.old) (R.remaining input.new) bytes
        × (space.new ≡ bytes ++ drop size (filled (length space.new) seed)))
        (IfSome (R.remaining input.old) (λ xs. size ≤ length space.new → length xs < size))) }
{
    fill(space, seed);
    let n = usize::from(size);
    // Not `read_part`: of a space that is lent on in part a proof knows the length alone, and here all of it is asked for.
    if space.len() < n {
        return Ok(false);
    }
    let got = read_full(input, &mut space[..n])?;
    Ok(got == n)
}

// The cases that this program runs.
struct WriterCases;

impl Program for WriterCases {
    ghost Case = { Case };

    ghost Fits = { Fits };

    ghost bytes = { case_bytes };

    ghost line = { case_line };

    fn run_case<R: Read, W: Write>(input: &mut R, out: &mut W) -> io::Result<bool> {
        // The space first: behind the reading of the head it would be cleared twice.
        let mut before = [0u8; 8192];
        let Some(bytes) = read_array::<R, 19>(input)? else {
            return Ok(false);
        };
        let head = Head::from(bytes);
        if !read_beginning(input, &mut before, head.length, head.seed)? {
            return Ok(false);
        }
        let mut space = before;
        let lent = usize::from(head.length) + usize::from(head.lent);
        let Some(buffer) = space.get_mut(..lent) else {
            return Ok(false);
        };
        print_case(out, &before, buffer, head)?;
        Ok(true)
    }
}

// (In each program: only `main` is given the runtime.)
fn main(rt: HostRuntime) -> io::Result<()> {
    let mut input = BufReader::new(rt.alloc(), rt.reader())?;
    let mut out = BufWriter::new(rt.alloc(), io::writer(&rt))?;
    run_cases::<WriterCases, _, _>(&mut input, &mut out)
}
