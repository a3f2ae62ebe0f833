// judge PROBLEM ANSWER: judges two files and prints one line. The line is proved, and that it is printed is tested.
#![tactic(auto)]

ghost use Rattle.std.specs.Prelude.{◌≤◌, length};
ghost use Rattle.rules.specs.Verdict.{verdict, numbers};
ghost use Rattle.rules.specs.Print.{line_of};
ghost use Rattle.writer.specs.Appended.{Appended};
ghost use Rattle.line.specs.Text.{room};

use judging::judge_files;
use line::line;
use loading::{file_room, load, write_line, write_nofile};
use std::env::Env;
use std::io;
use std::rt::Files;
use verdict::numbers;

// Puts the line for the verdict on the two files at the front of `out` and gives its length.
fn put_verdict(problem: &[u8], answer: &[u8], out: &mut [u8]) -> usize
    requires { room ≤ length out.old }
    ensures { Appended out.old out.new 0 result (line_of (numbers (verdict problem.now answer.now))) }
{
    line(numbers(judge_files(problem, answer)), out)
}

// Prints the verdict on the two files.
fn judge(rt: &impl Print, problem: &[u8], answer: &[u8]) -> io::Result<()> {
    write_line(&mut io::writer(rt), |out| put_verdict(problem, answer, out))
}

// Judges the answer that the second argument names.
fn with_problem(rt: &(impl Env + Files + Print), problem: &[u8]) -> io::Result<()> {
    let mut answer = file_room();
    match load(rt, 2, &mut answer) {
        Some(n) => judge(rt, problem, &answer[..n]),
        None => write_nofile(&mut io::writer(rt), 1),
    }
}

fn main(rt: HostRuntime) -> io::Result<()> {
    let mut problem = file_room();
    match load(&rt, 1, &mut problem) {
        Some(n) => with_problem(&rt, &problem[..n]),
        None => write_nofile(&mut io::writer(&rt), 0),
    }
}
