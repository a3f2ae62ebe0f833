// Bytes put into a lent buffer, from a place on. No other byte is touched.
#![tactic(auto)]

ghost use Rattle.std.specs.Prelude.{◌+◌, ◌≤◌, length};
ghost use Rattle.rules.specs.Writer.{bytes};
ghost use Rattle.rules.specs.Print.{digits};
ghost use Rattle.writer.specs.Appended.{Appended};

// Puts `text` at `at` and gives the place after it.
pub fn put_text(out: &mut [u8], at: usize, text: &[u8]) -> usize
    requires { at + length text.now ≤ length out.old }
    ensures { Appended out.old out.new at result text.now }
{
    let end = at + text.len();
    out[at..end].copy_from_slice(text);
    end
}

// Puts `v` at `at`, four bytes, low byte first, and gives the place after it.
pub fn put4(out: &mut [u8], at: usize, v: u32) -> usize
    requires { at + 4 ≤ length out.old }
    ensures { Appended out.old out.new at result (bytes 4 v) }
{
    put_text(out, at, &v.to_le_bytes())
}

// Puts the decimal digits of `n` at `at` and gives the place after them.
pub fn put_number(out: &mut [u8], at: usize, n: u32) -> usize
    requires { at + length (digits n) ≤ length out.old }
    ensures { Appended out.old out.new at result (digits n) }
{
    if n < 10 {
        out[at] = b'0' + n as u8;
        return at + 1;
    }
    let next = put_number(out, at, n / 10);
    out[next] = b'0' + (n % 10) as u8;
    next + 1
}
