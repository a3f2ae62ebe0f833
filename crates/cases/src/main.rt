// cases BUNDLE: runs the board on every case of a bundle and prints three lines for each: the verdict, the part that it points at, and the evidence.
// A bundle is the number of cases, and for each case the problem's length, the answer's length, the number of bytes lent, and the two files.
// Each number has four bytes, low byte first. Bytes after the last case are not read.
// A bundle that can't be opened or is cut, or a number above its limit, ends the output with the line `bad bundle`, after the lines of the cases before.
// What is printed is tested.
#![tactic(auto)]

ghost use Rattle.std.specs.Prelude.{◌*◌, ◌≤◌, ◌<◌, IfOk, length};
ghost use Rattle.cases.specs.Limits.{longest, most_lent, chunk};

use line::{line, put_numbers};
use loading::{with_argument, write_line};
use std::env::Env;
use std::fs::File;
use std::io;
use std::io::{Read, Write};
use std::rt::Files;
use verdict::{numbers, reply_numbers};
use writer::{put_number, put_text};

// The longest file of a case.
const LONGEST: usize = 65536;

// The most bytes lent.
const MOST_LENT: usize = 4096;

// Room for the words and numbers that a line starts with.
const HEAD: usize = 64;

// So many bytes are written in hex at a time.
const CHUNK: usize = 2048;

// Why no more cases are run.
#[derive(Drop)]
enum Stop {
    // The bundle can't be opened or is cut, or a number is above its limit.
    BadBundle,
    // A line can't be written.
    Unwritten(io::Error),
}

impl From<io::Error> for Stop {
    fn from(e: io::Error) -> Stop {
        Stop::Unwritten(e)
    }
}

// The digit of `d` in hex, in lower case. It is worked out, so that many bytes are spelled at once: a table is read byte by byte.
fn glyph(d: u8) -> u8
    requires { d < 16 }
{
    if d < 10 { b'0' + d } else { b'a' - 10 + d }
}

// Puts the two digits of each byte at the front of `out`.
fn spell(bytes: &[u8], out: &mut [u8])
    requires { length bytes.now * 2 ≤ length out.old }
{
    for (pair, b) in out.chunks_exact_mut(2).zip(bytes) {
        pair[0] = glyph(*b / 16);
        pair[1] = glyph(*b % 16);
    }
}

// Writes at most CHUNK bytes in hex.
fn write_chunk(to: &mut impl Write, bytes: &[u8]) -> io::Result<()>
    requires { length bytes.now ≤ chunk }
{
    let mut text = [0; 2 * CHUNK];
    spell(bytes, &mut text);
    to.write_all(&text[..2 * bytes.len()])
}

// Writes a line: the first `end` bytes of `head`, and after a space `bytes` in hex, or nothing more where there are none. What stands before
// the hex is written at once: the output has no buffer.
fn write_bytes(to: &mut impl Write, head: &mut [u8], end: usize, bytes: &[u8]) -> io::Result<()>
    requires { end < length head.old }
{
    if bytes.is_empty() {
        let end = put_text(head, end, b"\n");
        return to.write_all(&head[..end]);
    }
    let end = put_text(head, end, b" ");
    to.write_all(&head[..end])?;
    for chunk in bytes.chunks(CHUNK) {
        write_chunk(to, chunk)?;
    }
    to.write_all(b"\n")
}

// The line that `judge` prints.
fn write_verdict(to: &mut impl Write, problem: &[u8], answer: &[u8]) -> io::Result<()> {
    write_line(
        to,
        |out| line(numbers(judging::judge_files(problem, answer)), out),
    )
}

// The line for the part that the verdict points at.
fn write_part(to: &mut impl Write, part: &[u8]) -> io::Result<()>
    requires { length part.now ≤ longest }
{
    let mut head = [0; HEAD];
    let word = put_text(&mut head, 0, b"part ");
    let end = put_number(&mut head, word, part.len() as u32);
    write_bytes(to, &mut head, end, part)
}

// The line for the evidence that is made in the bytes lent.
fn write_evidence(
    to: &mut impl Write,
    problem: &[u8],
    answer: &[u8],
    lent: &mut [u8],
) -> io::Result<()> {
    let reply = making::evidence_files(problem, answer, lent);
    let mut head = [0; HEAD];
    let word = put_text(&mut head, 0, b"evidence ");
    let end = put_numbers(&mut head, word, reply_numbers(reply));
    write_bytes(to, &mut head, end, lent)
}

// The three lines of a case. Each of the bytes lent is 170.
fn write_case<'a>(
    to: &mut impl Write,
    problem: &'a [u8],
    answer: &'a [u8],
    lent: usize,
) -> io::Result<()>
    requires files_short { (length problem.now ≤ longest) × (length answer.now ≤ longest) }
    requires lent_short { lent ≤ most_lent }
{
    write_verdict(to, problem, answer)?;
    write_part(to, part::pointed_at(problem, answer))?;
    let mut buffer = [170; MOST_LENT];
    write_evidence(to, problem, answer, &mut buffer[..lent])
}

// Reads as many bytes of the bundle as `out` has.
fn fill(from: &mut impl Read, out: &mut [u8]) -> Result<(), Stop> {
    from.read_exact(out).map_err(|_| Stop::BadBundle)
}

// The number of four bytes, which may be at most `most`.
fn number(bytes: [u8; 4], most: usize) -> Result<usize, Stop>
    ensures { IfOk result (λ n. n ≤ most) }
{
    let n = u32::from_le_bytes(bytes) as usize;
    if n > most {
        Err(Stop::BadBundle)
    } else {
        Ok(n)
    }
}

// problem, answer: room for the longest file of a case, each.
// Runs the next case.
fn run_case(
    from: &mut impl Read,
    to: &mut impl Write,
    problem: &mut [u8; LONGEST],
    answer: &mut [u8; LONGEST],
) -> Result<(), Stop>
    requires { (longest ≤ length problem.old) × (longest ≤ length answer.old) }
{
    // At once, since the bundle is read without a buffer.
    let mut numbers = [[0; 4]; 3];
    fill(from, numbers.as_flattened_mut())?;
    let m = number(numbers[0], LONGEST)?;
    let n = number(numbers[1], LONGEST)?;
    let lent = number(numbers[2], MOST_LENT)?;
    fill(from, &mut problem[..m])?;
    fill(from, &mut answer[..n])?;
    write_case(to, &problem[..m], &answer[..n], lent)?;
    Ok(())
}

// Runs the bundle that is open.
fn run_bundle(from: &mut impl Read, to: &mut impl Write) -> Result<(), Stop> {
    let mut count = [0; 4];
    fill(from, &mut count)?;
    let mut problem = [0; LONGEST];
    let mut answer = [0; LONGEST];
    for _ in 0..u32::from_le_bytes(count) {
        run_case(from, to, &mut problem, &mut answer)?;
    }
    Ok(())
}

// Runs the bundle that the first argument names.
fn run(rt: &(impl Env + Files), to: &mut impl Write) -> Result<(), Stop> {
    let bundle = with_argument(rt, 1, |name| File::open(rt, name).ok());
    run_bundle(&mut bundle.ok_or(Stop::BadBundle)?, to)
}

fn main(rt: HostRuntime) -> io::Result<()> {
    let mut to = io::writer(&rt);
    match run(&rt, &mut to) {
        Err(Stop::BadBundle) => to.write_all(b"bad bundle\n"),
        Err(Stop::Unwritten(e)) => Err(e),
        Ok(()) => Ok(()),
    }
}
