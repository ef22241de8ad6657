// Where the provisioning text and a line end in a piece of the input (document 01, "Listing program").
ghost use Rattle.std.specs.Prelude.{◌≡◌, true, false, ◌+◌, ◌<◌, ◌≤◌, length, take};
ghost use Rattle.octets.specs.Room.{written};
ghost use Rattle.octets.specs.Text.{has_lf};
ghost use Rattle.recording.specs.Pieces.{text_end, line_end, to_keep, keeping};

use octets::text::LF;

// A line: its octets, and whether it ends with an LF.
#[derive(Clone, Copy)]
pub struct Line {
    pub size: usize,
    pub whole: bool,
}

// A line that is kept: how many octets of the piece are taken, how many octets of the line are kept now, and whether it is whole.
#[derive(Clone, Copy)]
pub struct Kept {
    pub taken: usize,
    pub have: usize,
    pub whole: bool,
}

// The octets before the first line that starts with `frame=`.
pub fn text_end(s: &[u8]) -> usize
    ensures { result ≡ text_end s.now }
{
    let mut begins = true;
    for (at, octet) in s.iter().enumerate() {
        if begins && octets::text::starts(&s[at..], b"frame=") {
            return at;
        }
        begins = *octet == LF;
    }
    s.len()
}

// Passes blocks of so many octets, from a place before which there is no LF, up to one that has an LF, or to where no block is left.
fn pass_blocks(s: &[u8], from: usize, size: usize) -> usize
    requires size_nonzero { 0 < size }
    requires from_in_bounds { from ≤ length s.now }
    requires s_value { has_lf (take from s.now) ≡ false }
    ensures within { result ≤ length s.now }
    ensures passed { has_lf (take result s.now) ≡ false }
    ensures stops { result + size ≤ length s.now → has_lf (take (result + size) s.now) ≡ true }
{
    let mut at = from;
    // Stays a `while`: `position` would look octet by octet, and `contains` tells no place.
    while size <= s.len() - at {
        if octets::text::has_lf(&s[at..at + size]) {
            return at;
        }
        at += size;
    }
    at
}

// The line that a piece starts with: its LF is looked for by blocks, then octet by octet.
pub(crate) fn line_end(s: &[u8]) -> Line
    ensures { result ≡ line_end s.now }
{
    let large = pass_blocks(s, 0, 32);
    let small = pass_blocks(s, large, 8);
    let at = pass_blocks(s, small, 1);
    if at < s.len() {
        return Line {
            size: at + 1,
            whole: true,
        };
    }
    Line {
        size: at,
        whole: false,
    }
}

// Keeps what a piece has of a line, behind the octets of it that are kept already, as far as the room goes.
pub(crate) fn keep(kept: &mut [u8], have: usize, piece: &[u8]) -> Kept
    ensures says { result ≡ keeping (length kept.old) have piece.now }
    ensures holds { kept.new ≡ written kept.old have (to_keep (length kept.old) have piece.now) }
{
    let Line { size: taken, whole } = line_end(piece);
    let room = kept.len();
    if room <= have {
        return Kept { taken, have, whole };
    }
    let n = octets::least(room - have, taken);
    // The room is there.
    let have = octets::put_octets(kept, have, &piece[..n]).unwrap_or(have);
    Kept { taken, have, whole }
}
