// A recording followed piece by piece, in fixed memory (docs/FOLLOW.md).
ghost use Rattle.std.specs.Prelude.{◌≡◌, ◌+◌, ◌≤◌, length, IfSome, IfOk};
ghost use Rattle.octets.specs.Room.{written};
ghost use Rattle.recording.specs.Walk.{answered};
ghost use Rattle.following.specs.Private.{Stands, taken_following};
ghost use Rattle.following.specs.Stream.{piece_followed, last_followed};

use crate::following::MOST_FOLLOWED;
use recording::stream::{Begun, MOST_KEPT, Walked};
use refusal::Refusal;
use trunk::Trunk;

// A line that is taken from a piece, where it is whole, as the frame number n.
fn put_taken(
    out: &mut [u8],
    at: usize,
    n: u64,
    table: &[u16; 256],
    cid: u8,
    line: Option<Result<usize, Refusal>>,
    frame: &[u8],
    trunk: &mut Trunk,
) -> usize
    requires at_in_bounds { at + 26176 ≤ length out.old }
    requires octets_in_bounds { IfSome line (λ read. IfOk read (λ size. size ≤ length frame.now)) }
    requires frame_len_bound { length frame.now ≤ 1600 }
    ensures { Stands out.old at (taken_following n table.now cid line frame.now trunk.old) 26176 out.new result trunk.new }
{
    match line {
        Some(read) => crate::following::put_read(out, at, n, table, cid, read, frame, trunk),
        None => at,
    }
}

// Follows the lines of a piece, to its end or to where the room for a line's text runs short. What it has of a line that goes on is
// kept.
pub fn follow_piece(
    piece: &[u8],
    begun: Begun,
    kept: &mut [u8; MOST_KEPT],
    table: &[u16; 256],
    cid: u8,
    trunk: &mut Trunk,
    out: &mut [u8],
) -> Walked
    ensures says { result ≡ answered (piece_followed (length out.old) table.now cid begun kept.old trunk.old piece.now) }
    ensures keeps { kept.new ≡ (piece_followed (length out.old) table.now cid begun kept.old trunk.old piece.now).kept }
    ensures leaves { trunk.new ≡ (piece_followed (length out.old) table.now cid begun kept.old trunk.old piece.now).state }
    ensures holds { out.new ≡ written out.old 0 (piece_followed (length out.old) table.now cid begun kept.old trunk.old piece.now).text }
{
    let mut stands = begun;
    let mut used = 0;
    let mut rest = piece;
    let mut frame = [0u8; 1600];
    while !rest.is_empty() && MOST_FOLLOWED <= out.len() - used {
        let taken = recording::stream::take_line(rest, stands, kept, &mut frame);
        used = put_taken(
            out,
            used,
            stands.number,
            table,
            cid,
            taken.line,
            &frame,
            trunk,
        );
        rest = &rest[taken.size..];
        stands = taken.next;
    }
    Walked {
        taken: piece.len() - rest.len(),
        used,
        next: stands,
    }
}

// Follows a last line that lacks its LF, and answers how many octets are printed: none where there is no such line, or no room.
pub fn follow_last(
    begun: Begun,
    kept: &[u8; MOST_KEPT],
    table: &[u16; 256],
    cid: u8,
    mut trunk: Trunk,
    out: &mut [u8],
) -> usize
    ensures says { result ≡ length (last_followed (length out.old) table.now cid begun kept.now trunk) }
    ensures holds { out.new ≡ written out.old 0 (last_followed (length out.old) table.now cid begun kept.now trunk) }
{
    if begun.have == 0 || out.len() < MOST_FOLLOWED {
        return 0;
    }
    let room: &[u8] = kept;
    let end = octets::least(begun.have, room.len());
    let mut frame = [0u8; 1600];
    let read = hexline::read_line(&room[..end], &mut frame);
    crate::following::put_read(out, 0, begun.number, table, cid, read, &frame, &mut trunk)
}
