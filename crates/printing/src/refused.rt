// What every program over recordings prints of a refusal (document 01, "Listing program").
ghost use Rattle.std.specs.Prelude.{◌≡◌, ◌+◌, ◌≤◌, length};
ghost use Rattle.octets.specs.Room.{written};
ghost use Rattle.printing.specs.Refused.{refused_listing, text_listing};
ghost use Rattle.printing.specs.Room.{fitting, Appended};

use crate::field::append_field;

// The room that is asked for each: names, and 20 digits and LF behind each.
const MOST_REFUSED: usize = 80;

const MOST_TEXT: usize = 52;

fn append_refused(out: &mut [u8], at: usize, n: u64, number: u8, place: usize) -> usize
    requires { at + 80 ≤ length out.old }
    ensures { Appended out.old at (refused_listing n number place) 80 out.new result }
{
    let past_frame = append_field(out, at, b"frame=", n);
    let past_number = append_field(out, past_frame, b"refused=", number as u64);
    append_field(out, past_number, b"at=", place as u64)
}

// Puts the lines of a refused frame, or of a line that holds none, into room from a place on, and answers the place after them.
// Nothing is put where the room is not there.
pub fn put_refused(out: &mut [u8], at: usize, n: u64, number: u8, place: usize) -> usize
    ensures answer { result ≡ at + length (fitting 80 out.old at (refused_listing n number place)) }
    ensures holds { out.new ≡ written out.old at (fitting 80 out.old at (refused_listing n number place)) }
{
    if octets::exceeds(out.len(), at, MOST_REFUSED) {
        return at;
    }
    append_refused(out, at, n, number, place)
}

fn append_refused_text(out: &mut [u8], at: usize, number: u8, line: usize) -> usize
    requires { at + 52 ≤ length out.old }
    ensures { Appended out.old at (text_listing number line) 52 out.new result }
{
    let past_text = append_field(out, at, b"text=", number as u64);
    append_field(out, past_text, b"line=", line as u64)
}

// The same for a refused text, by its refusal number and line.
pub fn put_refused_text(out: &mut [u8], at: usize, number: u8, line: usize) -> usize
    ensures answer { result ≡ at + length (fitting 52 out.old at (text_listing number line)) }
    ensures holds { out.new ≡ written out.old at (fitting 52 out.old at (text_listing number line)) }
{
    if octets::exceeds(out.len(), at, MOST_TEXT) {
        return at;
    }
    append_refused_text(out, at, number, line)
}
