// What the programs over stored cases share: a case is read, lent bytes are filled before a call and told after it, numbers and
// refusals are written, and one case is run after another. No other crate uses it. After an error of the reader or the writer
// nothing is said of it, nor of the buffer that was read into, and no other error comes.
#![tactic(auto)]

ghost use Rattle.std.specs.Prelude.{◌≡◌, ◌+◌, ◌*◌, ◌%◌, ◌<◌, ◌≤◌, ℕ, List, length, take, slice_index, IfOk, IfSome, OnOk};
ghost use Rattle.std.specs.Prelude.{MatchBool, MatchOption};
ghost use Rattle.std.specs.Io.KnownBytes.{Appends, Consumes, IsAtEnd};
ghost use Rattle.lent.specs.Cases.{RunsCase, RunsCases};
ghost use Rattle.records.specs.Refusals.{number_of};
ghost use Rattle.lent.specs.Told.{number_text, refusal_text, hex_pair, hex_text, used_len, filled, written_text, sums_text};

use records::refusals::Refusal;
use std::io;
use std::io::{Read, Write};

// Reads until the buffer is full or the input ends, and answers how many bytes it put at the start of the buffer.
pub fn read_full<R: Read>(input: &mut R, buffer: &mut [u8]) -> io::Result<usize>
    ensures bound { IfOk result (λ n. n ≤ length buffer.new) }
    ensures bytes { IfOk result (λ n.
        Consumes (R.remaining input.old) (R.remaining input.new) (take n buffer.new)) }
    ensures end { IfOk result (λ n. n < length buffer.new → IsAtEnd (R.remaining input.new)) }
{
    let mut done = 0;
    // A read gives as many bytes as it likes, so no `for` counts them.
    while done < buffer.len() {
        let n = input.read(&mut buffer[done..])?;
        if n == 0 {
            break;
        }
        done += n;
    }
    Ok(done)
}

// Reads until the buffer is full. Answers whether the input held as many bytes.
fn read_whole<R: Read>(input: &mut R, buffer: &mut [u8]) -> io::Result<bool>
    ensures { IfOk result (λ whole. MatchBool whole
        (Consumes (R.remaining input.old) (R.remaining input.new) buffer.new)
        (IfSome (R.remaining input.old) (λ xs. length xs < length buffer.new))) }
{
    Ok(read_full(input, buffer)? == buffer.len())
}

// Reads so many bytes; none where the input ends before.
pub fn read_array<R: Read, const N: usize>(input: &mut R) -> io::Result<Option<[u8; N]>>
    ensures { IfOk result (λ read. MatchOption read
        (IfSome (R.remaining input.old) (λ xs. length xs < N))
        (Consumes (R.remaining input.old) (R.remaining input.new))) }
{
    let mut bytes = [0; N];
    Ok(read_whole(input, &mut bytes)?.then_some(bytes))
}

// Reads so many bytes into the start of a space; none where they don't fit, or the input ends before.
pub fn read_part<'a, R: Read>(
    input: &mut R,
    space: &'a mut [u8],
    size: usize,
) -> io::Result<Option<&'a [u8]>>
    ensures { IfOk result (λ read. MatchOption read
        (IfSome (R.remaining input.old) (λ xs. size ≤ length space.old → length xs < size))
        (λ part. (length part.now ≡ size) × (size ≤ length space.old)
        × Consumes (R.remaining input.old) (R.remaining input.new) part.now)) }
{
    let Some(part) = space.get_mut(..size) else {
        return Ok(None);
    };
    let whole = read_whole(input, part)?;
    Ok(whole.then_some(part))
}

// Writes a number and the byte that follows it.
pub fn print_number<W: Write>(out: &mut W, n: u64, after: u8) -> io::Result<()>
    ensures { OnOk result (Appends (W.contents out.old) (W.contents out.new) (number_text n after)) }
{
    write!(out, "{n}")?;
    out.write_all(&[after])
}

// Writes a refusal's number and place, and the byte that follows.
pub fn print_refusal<W: Write>(out: &mut W, refusal: Refusal, after: u8) -> io::Result<()>
    ensures { OnOk result (Appends (W.contents out.old) (W.contents out.new)
        (refusal_text (number_of refusal.row) refusal.place after)) }
{
    write!(out, "{} ", refusal.row.number())?;
    print_number(out, refusal.place as u64, after)
}

// The place of the last byte that is not 0.
fn last_used(part: &[u8]) -> Option<usize>
    ensures { MatchOption result ((k : ℕ) → k < length part.now → slice_index part.now k ≡ 0)
        (λ last. (last < length part.now) × (0 < slice_index part.now last)
        × ((k : ℕ) → last < k → k < length part.now → slice_index part.now k ≡ 0)) }
{
    part.iter().rposition(|byte| *byte != 0)
}

// How many of the first so many bytes stand before and at the last of them that is not 0. (A count beside: it may be past the
// buffer.)
fn used(buffer: &[u8], written: usize) -> usize
    ensures bound { result ≤ length buffer.now }
    ensures value { result ≡ used_len (take written buffer.now) }
{
    let front = &buffer[..written.min(buffer.len())];
    match last_used(front) {
        Some(last) => last + 1,
        None => 0,
    }
}

// Writes bytes in hexadecimal.
fn print_digits<W: Write>(out: &mut W, part: &[u8]) -> io::Result<()>
    ensures { OnOk result (Appends (W.contents out.old) (W.contents out.new) (hex_text part.now)) }
{
    for byte in part {
        print_hex(out, *byte)?;
    }
    Ok(())
}

// Writes a byte as two hexadecimal digits.
pub fn print_hex<W: Write>(out: &mut W, byte: u8) -> io::Result<()>
    ensures { OnOk result (Appends (W.contents out.old) (W.contents out.new) (hex_pair byte)) }
{
    write!(out, "{byte:02x}")
}

// Writes the first so many bytes as far as the last that is not 0, or a dash where all are 0.
pub fn print_written<W: Write>(out: &mut W, buffer: &[u8], written: usize) -> io::Result<()>
    ensures { OnOk result (Appends (W.contents out.old) (W.contents out.new)
        (written_text buffer.now (used_len (take written buffer.now)))) }
{
    let end = used(buffer, written);
    if end == 0 {
        return out.write_all(b"- ");
    }
    print_digits(out, &buffer[..end])?;
    out.write_all(b" ")
}

// Writes the sum of the bytes, the sum of the sums after each byte, which tells their order, and the byte that follows.
pub fn print_sums<W: Write>(out: &mut W, buffer: &[u8], after: u8) -> io::Result<()>
    ensures { OnOk result (Appends (W.contents out.old) (W.contents out.new) (sums_text buffer.now after)) }
{
    let mut low = 0u64;
    let mut high = 0u64;
    for byte in buffer {
        low = low.wrapping_add(u64::from(*byte));
        high = high.wrapping_add(low);
    }
    print_number(out, low, b' ')?;
    print_number(out, high, after)
}

// Fills lent bytes: byte i is 7 i + seed, modulo 256.
#[tactic(auto, unfolding(crate::specs::Told::filled))]
pub fn fill(buffer: &mut [u8], seed: u8)
    ensures value { buffer.new ≡ filled (length buffer.old) seed }
    ensures bytes { (i : ℕ) → i < length buffer.new → slice_index buffer.new i ≡ (7 * i + seed) % 256 }
{
    let mut value = seed;
    for byte in buffer {
        *byte = value;
        value = value.wrapping_add(7);
    }
}

// What a program runs: which cases fit into its space, how a case stands in the input, and its line.
pub trait Program {
    ghost Case: { Type 0 };

    ghost Fits: { Self.Case → Type 0 };

    ghost bytes: { Self.Case → List ℕ };

    ghost line: { Self.Case → List ℕ };

    // Reads a case and writes its line. Answers whether a case stood there, and fitted into the space.
    fn run_case<R: Read, W: Write>(input: &mut R, out: &mut W) -> io::Result<bool>
        ensures { IfOk result (RunsCase Self.Fits Self.bytes Self.line
            (R.remaining input.old) (R.remaining input.new) (W.contents out.old) (W.contents out.new)) };
}

// Runs the cases that the input begins with, up to where no whole case stands. (A loop has to end; no input holds so many.)
fn run_all<P: Program, R: Read, W: Write>(input: &mut R, out: &mut W) -> io::Result<()>
    ensures { OnOk result (IfSome (R.remaining input.old)
        (RunsCases P.Fits P.bytes P.line (W.contents out.old) (W.contents out.new))) }
{
    for _ in 0..u64::MAX {
        if !P::run_case(input, out)? {
            return Ok(());
        }
    }
    Ok(())
}

// Runs those cases. The lines of the cases that were run are handed on, also where the next could not be read.
pub fn run_cases<P: Program, R: Read, W: Write>(input: &mut R, out: &mut W) -> io::Result<()>
    ensures { OnOk result (IfSome (R.remaining input.old)
        (RunsCases P.Fits P.bytes P.line (W.contents out.old) (W.contents out.new))) }
{
    let ran = run_all::<P, R, W>(input, out);
    out.flush()?;
    ran
}
