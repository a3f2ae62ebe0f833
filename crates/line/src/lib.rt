// The lines that the program `judge` prints: for a verdict, and for a file that can't be opened.
#![tactic(auto)]

ghost use Rattle.std.specs.Prelude.{◌++◌, ◌+◌, ◌≤◌, length};
ghost use Rattle.rules.specs.Verdict.{four};
ghost use Rattle.rules.specs.Print.{digits, space, line_of, nofile_line};
ghost use Rattle.line.specs.Text.{room, nofile_room, numbers_room, four_numbers};
ghost use Rattle.writer.specs.Appended.{Appended};

use verdict::Four;
use writer::{put_number, put_text};

// What a line needs at most: `refuse 255 255 65535 4294967295` and a line feed.
pub const ROOM: usize = 32;

// Puts a space and the decimal digits of `n` at `at` and gives the place after them.
fn put_spaced(out: &mut [u8], at: usize, n: u32) -> usize
    requires { at + length (space ++ digits n) ≤ length out.old }
    ensures { Appended out.old out.new at result (space ++ digits n) }
{
    let next = put_text(out, at, b" ");
    put_number(out, next, n)
}

// Puts the four numbers of a refusal, with single spaces, at `at` and gives the place after them.
pub fn put_numbers(out: &mut [u8], at: usize, v: Four) -> usize
    requires { at + numbers_room ≤ length out.old }
    ensures { Appended out.old out.new at result (four_numbers (four v.code v.file v.number v.at)) }
{
    let code = put_number(out, at, v.code as u32);
    let file = put_spaced(out, code, v.file as u32);
    let number = put_spaced(out, file, v.number as u32);
    put_spaced(out, number, v.at)
}

// Puts the line of a verdict, whose four numbers are given, at the front of `out` and gives its length.
pub fn line(v: Four, out: &mut [u8]) -> usize
    requires { room ≤ length out.old }
    ensures { Appended out.old out.new 0 result (line_of (four v.code v.file v.number v.at)) }
{
    if v.code == 0 {
        let word = put_text(out, 0, b"pass ");
        let end = put_number(out, word, v.at);
        return put_text(out, end, b"\n");
    }
    let word = put_text(out, 0, b"refuse ");
    let end = put_numbers(out, word, v);
    put_text(out, end, b"\n")
}

// Puts the line for the file `file`, which can't be opened, at the front of `out` and gives its length.
pub fn nofile(file: u8, out: &mut [u8]) -> usize
    requires { nofile_room ≤ length out.old }
    ensures { Appended out.old out.new 0 result (nofile_line file) }
{
    let word = put_text(out, 0, b"nofile ");
    let number = put_number(out, word, file as u32);
    put_text(out, number, b"\n")
}
