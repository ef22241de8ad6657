// A whole recording told piece by piece: what the programs `list` and `follow` do alike.
ghost use Rattle.std.specs.Prelude.{◌<◌, ◌≤◌, length, IfSome};
ghost use Rattle.streaming.specs.Pieces.{Within, GoesOn};

use crate::input::Piece;
use recording::stream::{Begun, Walked};
use std::io::Read;

// The room for what is told at once.
pub const ROOM: usize = 65536;

// What a program tells of a recording. So that some of a piece is told, the room has to take what any line brings.
pub trait Tells {
    // Tells a piece, as much of it as the room takes: some of it, and no more than it has.
    fn piece(&mut self, piece: &[u8], begun: Begun, out: &mut [u8; ROOM]) -> Walked
        ensures within { result.taken ≤ length piece.now }
        ensures some { 0 < length piece.now → 0 < result.taken };

    // Tells a last line that lacks its LF, and answers how many octets of text that is.
    fn last(&mut self, begun: Begun, out: &mut [u8; ROOM]) -> usize;
}

// How it stands behind what was told of a piece: what is left of the piece, and how the next line begins.
#[derive(Clone, Copy)]
struct Stands {
    left: Piece,
    begun: Begun,
}

// Tells a piece, as much of it as the room takes, and prints that. What is left of it begins behind what was told; none where the
// write fails.
fn tell_piece<T: Tells>(
    rt: &(impl Print + Eprint),
    program: &[u8],
    input: &[u8],
    piece: Piece,
    begun: Begun,
    tells: &mut T,
    out: &mut [u8; ROOM],
) -> Option<Stands>
    requires { Within piece (length input.now) }
    ensures { IfSome result (λ stands. GoesOn piece stands.left) }
{
    let told = tells.piece(&input[piece.from..piece.to], begun, out);
    if !crate::output::print(rt, program, out, told.used) {
        return None;
    }
    Some(Stands {
        left: Piece {
            from: piece.from + told.taken,
            to: piece.to,
        },
        begun: told.next,
    })
}

// Tells piece after piece, from the one behind the text to the end of the input, and a last line without LF, and prints what is
// told. Where a write fails it stops.
pub fn tell_all<T: Tells>(
    rt: &(impl Print + Eprint),
    reader: &mut impl Read,
    program: &[u8],
    input: &mut [u8],
    first: Piece,
    tells: &mut T,
) {
    let mut out = [0u8; ROOM];
    let mut left = first;
    let mut begun = Begun { have: 0, number: 0 };
    // To an end that no run reaches.
    for _ in 0..u64::MAX {
        let piece = crate::input::next(reader, input, left);
        if piece.from == piece.to {
            let used = tells.last(begun, &mut out);
            crate::output::print(rt, program, &out, used);
            return;
        }
        let Some(stands) = tell_piece(rt, program, input, piece, begun, tells, &mut out) else {
            return;
        };
        left = stands.left;
        begun = stands.begun;
    }
}
