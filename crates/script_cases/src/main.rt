// Runs the script check of `scripts` over the cases on standard input, and writes a line for each:
// the answer.
// A case is the length of its vocabulary and the length of its script (two bytes each, low byte
// first), the vocabulary, and the script.
#![tactic(auto)]

ghost use Rattle.std.specs.Prelude.{◌≡◌, ◌++◌, OnOk};
ghost use Rattle.std.specs.Io.KnownBytes.{Appends};
ghost use Rattle.records.specs.Refusals.{answered};
ghost use Rattle.lent.specs.Told.{pair_bytes};
ghost use Rattle.script_cases.specs.Lines.{Case, Fits, case_bytes, answer_text, case_line};

use lent::{Program, print_refusal, read_array, read_part, run_cases};
use records::refusals::Refusal;
use std::io;
use std::io::{BufReader, BufWriter, Read, Write};

// Writes the answer's word and its numbers.
fn print_answer<W: Write>(out: &mut W, answer: Result<usize, Refusal>) -> io::Result<()>
    ensures { OnOk result (Appends (W.contents out.old) (W.contents out.new) (answer_text (answered answer))) }
{
    match answer {
        Ok(steps) => writeln!(out, "accepted {steps}"),
        Err(refusal) => {
            out.write_all(b"refused ")?;
            print_refusal(out, refusal, b'\n')
        }
    }
}

// What stands before a vocabulary and a script: their lengths.
#[derive(Clone, Copy)]
struct Head {
    vocabulary: u16,
    script: u16,
}

impl From<[u8; 4]> for Head {
    ghost from_gives = { λ bytes head. pair_bytes head.vocabulary ++ pair_bytes head.script ≡ bytes };

    fn from(bytes: [u8; 4]) -> Self {
        Head {
            vocabulary: u16::from_le_bytes([bytes[0], bytes[1]]),
            script: u16::from_le_bytes([bytes[2], bytes[3]]),
        }
    }
}

// The cases that this program runs.
struct ScriptCases;

impl Program for ScriptCases {
    ghost Case = { Case };

    ghost Fits = { Fits };

    ghost bytes = { case_bytes };

    ghost line = { case_line };

    fn run_case<R: Read, W: Write>(input: &mut R, out: &mut W) -> io::Result<bool> {
        // The spaces first: behind the reading of the head they would be cleared twice.
        let mut space = [0u8; 8192];
        let mut script_space = [0u8; 65536];
        let Some(bytes) = read_array::<R, 4>(input)? else {
            return Ok(false);
        };
        let head = Head::from(bytes);
        let Some(v) = read_part(input, &mut space, usize::from(head.vocabulary))? else {
            return Ok(false);
        };
        let Some(s) = read_part(input, &mut script_space, usize::from(head.script))? else {
            return Ok(false);
        };
        print_answer(out, scripts::check_script(v, s))?;
        Ok(true)
    }
}

// (In each program: only `main` is given the runtime.)
fn main(rt: HostRuntime) -> io::Result<()> {
    let mut input = BufReader::new(rt.alloc(), rt.reader())?;
    let mut out = BufWriter::new(rt.alloc(), io::writer(&rt))?;
    run_cases::<ScriptCases, _, _>(&mut input, &mut out)
}
