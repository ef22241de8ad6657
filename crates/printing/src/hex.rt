// Octets in lower-case hex, two digits an octet, the higher first.
ghost use Rattle.std.specs.Prelude.{◌≡◌, ◌+◌, ◌*◌, ◌≤◌, ◌<◌, ltb, length};
ghost use Rattle.octets.specs.Room.{written};
ghost use Rattle.printing.specs.Hex.{hex_digit, hex_pair, hex_of};
ghost use Rattle.printing.specs.Field.{hex_field};
ghost use Rattle.printing.specs.Room.{fitting, Appended};

use crate::append::{put_octet, put_text};
use octets::text::LF;

#[tactic(auto, unfolding(crate::specs::Hex::hex_digit))]
fn hex_digit(n: u8) -> u8
    requires { n < 16 }
    ensures { result ≡ hex_digit n }
{
    if n < 10 {
        return 48 + n;
    }
    87 + n
}

fn put_pair(out: &mut [u8], at: usize, octet: u8) -> usize
    requires { at + 2 ≤ length out.old }
    ensures { Appended out.old at (hex_pair octet) 2 out.new result }
{
    let low = put_octet(out, at, hex_digit(octet / 16));
    put_octet(out, low, hex_digit(octet % 16))
}

fn put_hex(out: &mut [u8], at: usize, octets: &[u8]) -> usize
    requires { at + 2 * length octets.now ≤ length out.old }
    ensures { Appended out.old at (hex_of octets.now) (2 * length octets.now) out.new result }
{
    let mut next = at;
    for octet in octets {
        next = put_pair(out, next, *octet);
    }
    next
}

// Whether a name, octets in hex and LF, from a place on, exceed a room of this length.
fn hex_exceeds(room: usize, at: usize, key: usize, octets: usize) -> bool
    requires { key < 9223372036854775808 }
    ensures { result ≡ ltb room (at + (key + (2 * octets + 1))) }
{
    if octets::exceeds(room, at, key + 1) {
        return true;
    }
    (room - at - key - 1) / 2 < octets
}

fn append_hex_field(out: &mut [u8], at: usize, key: &[u8], octets: &[u8]) -> usize
    requires { at + (length key.now + (2 * length octets.now + 1)) ≤ length out.old }
    ensures { Appended out.old at (hex_field key.now octets.now) (length key.now + (2 * length octets.now + 1)) out.new result }
{
    let value = put_text(out, at, key);
    let end = put_hex(out, value, octets);
    put_octet(out, end, LF)
}

// Puts a name, octets in hex and LF into room from a place on, and answers the place after them. Nothing is put where the room is
// not there.
pub fn put_hex_field(out: &mut [u8], at: usize, key: &[u8], octets: &[u8]) -> usize
    ensures answer { result ≡ at + length (fitting (length key.now + (2 * length octets.now + 1)) out.old at (hex_field key.now octets.now)) }
    ensures holds { out.new ≡ written out.old at (fitting (length key.now + (2 * length octets.now + 1)) out.old at (hex_field key.now octets.now)) }
{
    if hex_exceeds(out.len(), at, key.len(), octets.len()) {
        return at;
    }
    append_hex_field(out, at, key, octets)
}
