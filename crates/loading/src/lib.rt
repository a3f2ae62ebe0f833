// What the programs share: room for a file, a file that an argument names loaded into lent room, and a line written.
// What stands in an argument or in a file, and what is taken of a line, no clause says: that is tested.
#![tactic(auto)]

ghost use Rattle.std.specs.Prelude.{◌≡◌, ◌≤◌, length, Some, IfSome, OnOk};
ghost use Rattle.std.specs.Io.KnownBytes.{Appends};
ghost use Rattle.rules.specs.Sizes.{read_limit};
ghost use Rattle.rules.specs.Print.{nofile_line};
ghost use Rattle.layout.specs.Flat.{filled};
ghost use Rattle.loading.specs.Lines.{longest_name, PutsLine, WritesLine};

use layout::READ_LIMIT;
use line::{ROOM, nofile};
use std::env::Env;
use std::fs::File;
use std::io;
use std::io::{Read, Write};
use std::rt::Files;

// Longer than any name that the system takes.
const ARGUMENT_ROOM: usize = 4096;

// Room for as much of a file as is read, and so for every answer.
#[tactic(auto, unfolding(rules::specs::Sizes::read_limit, layout::specs::Flat::filled))]
pub fn file_room() -> [u8; READ_LIMIT]
    ensures { result ≡ filled read_limit 0 }
{
    [0; READ_LIMIT]
}

// Gives what `then` makes of the text of argument `i`, and nothing where the argument is missing, longer than any name or no text.
pub fn with_argument<T, F: FnOnce(&str) -> Option<T>>(rt: &impl Env, i: usize, then: F) -> Option<T>
    requires { F.IsAlwaysCallable then }
    ensures { IfSome result (λ x. (text : _) × (length text.now ≤ longest_name) × F.post then text (Some x)) }
{
    let mut room = [0u8; ARGUMENT_ROOM];
    let end = rt.arg(i, &mut room).ok()?;
    then(str::from_utf8(&room[..end]).ok()?)
}

// Reads until `out` is full, the file ends or a read fails, and gives how many bytes there are, and nothing where the first read fails.
fn read_file(file: &mut impl Read, out: &mut [u8]) -> Option<usize>
    ensures { IfSome result (λ n. n ≤ length out.new) }
{
    let mut done = file.read(out).ok()?;
    while done < out.len() {
        match file.read(&mut out[done..]) {
            Ok(0) | Err(_) => break,
            Ok(n) => done += n,
        }
    }
    Some(done)
}

// Reads the file that argument `i` names into `out`, as far as there is room, and gives how many bytes there are, and nothing where there is no
// such file that can be read.
pub fn load(rt: &(impl Env + Files), i: usize, out: &mut [u8]) -> Option<usize>
    ensures { IfSome result (λ n. n ≤ length out.new) }
{
    with_argument(rt, i, |name| {
        let mut file = File::open(rt, name).ok()?;
        read_file(&mut file, out)
    })
}

// Writes what `put` puts at the front of a buffer, of which it gives the length.
pub fn write_line<W: Write, F: FnOnce(&mut [u8]) -> usize>(to: &mut W, put: F) -> io::Result<()>
    requires { PutsLine F.FnOnce put }
    ensures { OnOk result (WritesLine F.FnOnce put (W.contents to.old) (W.contents to.new)) }
{
    let mut text = [0u8; ROOM];
    let end = put(&mut text);
    to.write_all(&text[..end])
}

// Writes that the file `file` can't be opened.
pub fn write_nofile<W: Write>(to: &mut W, file: u8) -> io::Result<()>
    ensures { OnOk result (Appends (W.contents to.old) (W.contents to.new) (nofile_line file)) }
{
    write_line(to, |out| nofile(file, out))
}
