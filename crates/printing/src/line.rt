// A line of its own: a text, LF.
ghost use Rattle.std.specs.Prelude.{◌≡◌, ◌+◌, ◌≤◌, length};
ghost use Rattle.octets.specs.Room.{written};
ghost use Rattle.printing.specs.Field.{line};
ghost use Rattle.printing.specs.Room.{fitting, Appended};

use crate::append::{put_octet, put_text};
use octets::text::LF;

fn append_line(out: &mut [u8], at: usize, text: &[u8]) -> usize
    requires { at + (length text.now + 1) ≤ length out.old }
    ensures { Appended out.old at (line text.now) (length text.now + 1) out.new result }
{
    let end = put_text(out, at, text);
    put_octet(out, end, LF)
}

// Puts a text and LF into room from a place on, and answers the place after them. Nothing is put where the room is not there.
pub fn put_line(out: &mut [u8], at: usize, text: &[u8]) -> usize
    ensures answer { result ≡ at + length (fitting (length text.now + 1) out.old at (line text.now)) }
    ensures holds { out.new ≡ written out.old at (fitting (length text.now + 1) out.old at (line text.now)) }
{
    if octets::exceeds(out.len(), at, text.len() + 1) {
        return at;
    }
    append_line(out, at, text)
}
