// make PROBLEM STEPS OUT: makes an answer to a problem by so many order steps, writes it to the file OUT and prints one line.
// The answer and the lines are proved; that they are written and printed is tested.
#![tactic(auto)]

ghost use Rattle.std.specs.Prelude.{◌≡◌, ◌≤◌, Err, IfOk, length};
ghost use Rattle.rules.specs.MakeBasis.{make_basis, basis_numbers};
ghost use Rattle.rules.specs.Print.{line_of};
ghost use Rattle.writer.specs.Appended.{Appended};
ghost use Rattle.line.specs.Text.{room};
ghost use Rattle.basis_making.specs.Meant.{basis_meant};
ghost use Rattle.make.specs.Made.{made_line};

use basis_making::{Made, basis_file, basis_numbers};
use line::line;
use loading::{file_room, load, with_argument, write_line, write_nofile};
use std::env::{Env, FillError};
use std::fs::{File, OpenFile};
use std::io;
use std::io::Write;
use std::rt::Files;
use verdict::Unwritten;
use writer::{put_number, put_text};

// Whether there is an argument `i`. No byte of it is wanted, so that one which is not empty is too long.
fn is_given(rt: &impl Env, i: usize) -> bool {
    !matches!(rt.arg(i, &mut []), Err(FillError::NotPresent))
}

// The number that decimal digits stand for: at least one digit, and nothing else.
fn read_steps(text: &str) -> Option<u32> {
    // The library takes a sign too.
    if text.starts_with('+') {
        None
    } else {
        text.parse().ok()
    }
}

// Makes the answer in `file`. After a success no more bytes are counted than `file` has.
fn made(problem: &[u8], steps: u32, file: &mut [u8]) -> Result<Made, Unwritten>
    ensures result_value { basis_meant result ≡ (make_basis problem.now steps file.old).answer }
    ensures file_after { file.new ≡ (make_basis problem.now steps file.old).buffer }
    ensures within { IfOk result (λ made. made.bytes ≤ length file.new) }
{
    basis_file(problem, steps, file)
}

// Asks the disk to keep what was written to a file on it, since closing a file does not tell whether it is kept. Nothing more is asked of a pipe or a device.
fn keep(file: &impl OpenFile) -> io::Result<()> {
    if file.metadata()?.is_file() {
        file.sync_all()
    } else {
        Ok(())
    }
}

// Writes all of `bytes` to the file that has this name.
fn write_file(rt: &impl Files, name: &str, bytes: &[u8]) -> io::Result<()> {
    let mut file = File::create(rt, name)?;
    file.write_all(bytes)?;
    keep(&file)
}

// Writes all of `file` to the file that the third argument names, where that can be done.
fn save(rt: &(impl Env + Files), file: &[u8]) -> Option<()> {
    with_argument(rt, 3, |name| write_file(rt, name, file).ok())
}

// Puts the line for an answer that is made, with the steps done and the bytes, at the front of `out` and gives its length.
fn put_made(made: Made, out: &mut [u8]) -> usize
    requires { room ≤ length out.old }
    ensures { Appended out.old out.new 0 result (made_line made.steps made.bytes) }
{
    let word = put_text(out, 0, b"made ");
    let steps = put_number(out, word, made.steps as u32);
    let space = put_text(out, steps, b" ");
    let bytes = put_number(out, space, made.bytes);
    put_text(out, bytes, b"\n")
}

// Puts the line for a refusal, with its four numbers, at the front of `out` and gives its length.
fn put_refused(reason: Unwritten, out: &mut [u8]) -> usize
    requires { room ≤ length out.old }
    ensures { Appended out.old out.new 0 result (line_of (basis_numbers (basis_meant (Err reason)))) }
{
    line(basis_numbers(Err(reason)), out)
}

// Makes the answer to a problem. The file is opened only after a success.
fn make(rt: &(impl Env + Files + Print), problem: &[u8], steps: u32) -> io::Result<()> {
    let mut to = io::writer(rt);
    let mut file = file_room();
    match made(problem, steps, &mut file) {
        Ok(made) => match save(rt, &file[..made.bytes as usize]) {
            Some(()) => write_line(&mut to, |out| put_made(made, out)),
            None => write_nofile(&mut to, 1),
        },
        Err(reason) => write_line(&mut to, |out| put_refused(reason, out)),
    }
}

// Makes the answer to the problem that the first argument names.
fn with_steps(rt: &(impl Env + Files + Print), steps: u32) -> io::Result<()> {
    let mut problem = file_room();
    match load(rt, 1, &mut problem) {
        Some(n) => make(rt, &problem[..n], steps),
        None => write_nofile(&mut io::writer(rt), 0),
    }
}

// The number of steps that the second argument gives, where there are the three arguments and no more.
fn asked(rt: &impl Env) -> Option<u32> {
    if is_given(rt, 3) && !is_given(rt, 4) {
        with_argument(rt, 2, read_steps)
    } else {
        None
    }
}

fn main(rt: HostRuntime) -> io::Result<()> {
    match asked(&rt) {
        Some(steps) => with_steps(&rt, steps),
        None => io::writer(&rt).write_all(b"usage: make PROBLEM STEPS OUT\n"),
    }
}
