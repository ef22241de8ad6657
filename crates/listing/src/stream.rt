// A recording listed piece by piece, in fixed memory (document 01, "Listing program").
ghost use Rattle.std.specs.Prelude.{◌≡◌, ◌+◌, ◌≤◌, length, IfSome, IfOk};
ghost use Rattle.octets.specs.Room.{written};
ghost use Rattle.recording.specs.Walk.{answered};
ghost use Rattle.listing.specs.Private.{taken_listing};
ghost use Rattle.listing.specs.Stream.{piece_listed, last_listed};
ghost use Rattle.printing.specs.Room.{Appended};

use crate::listing::MOST_LISTED;
use recording::stream::{Begun, MOST_KEPT, Walked};
use refusal::Refusal;

// A line that is taken from a piece, where it is whole, as the frame number n.
fn put_taken(
    out: &mut [u8],
    at: usize,
    n: u64,
    table: &[u16; 256],
    line: Option<Result<usize, Refusal>>,
    frame: &[u8],
) -> usize
    requires at_in_bounds { at + 6709 ≤ length out.old }
    requires octets_in_bounds { IfSome line (λ read. IfOk read (λ size. size ≤ length frame.now)) }
    requires frame_len_bound { length frame.now ≤ 1600 }
    ensures { Appended out.old at (taken_listing n table.now line frame.now) 6709 out.new result }
{
    match line {
        Some(read) => crate::listing::put_read(out, at, n, table, read, frame),
        None => at,
    }
}

// Lists the lines of a piece, to its end or to where the room for a listing runs short. What it has of a line that goes on is
// kept.
pub fn list_piece(
    piece: &[u8],
    begun: Begun,
    kept: &mut [u8; MOST_KEPT],
    table: &[u16; 256],
    out: &mut [u8],
) -> Walked
    ensures says { result ≡ answered (piece_listed (length out.old) table.now begun kept.old piece.now) }
    ensures keeps { kept.new ≡ (piece_listed (length out.old) table.now begun kept.old piece.now).kept }
    ensures holds { out.new ≡ written out.old 0 (piece_listed (length out.old) table.now begun kept.old piece.now).text }
{
    let mut stands = begun;
    let mut used: usize = 0;
    let mut rest = piece;
    let mut frame = [0u8; 1600];
    while !rest.is_empty() && MOST_LISTED <= out.len() - used {
        let taken = recording::stream::take_line(rest, stands, kept, &mut frame);
        used = put_taken(out, used, stands.number, table, taken.line, &frame);
        rest = &rest[taken.size..];
        stands = taken.next;
    }
    Walked {
        taken: piece.len() - rest.len(),
        used,
        next: stands,
    }
}

// Lists a last line that lacks its LF, and answers how many octets are listed: none where there is no such line, or no room.
pub fn list_last(begun: Begun, kept: &[u8; MOST_KEPT], table: &[u16; 256], out: &mut [u8]) -> usize
    ensures says { result ≡ length (last_listed (length out.old) table.now begun kept.now) }
    ensures holds { out.new ≡ written out.old 0 (last_listed (length out.old) table.now begun kept.now) }
{
    if begun.have == 0 {
        return 0;
    }
    let room: &[u8] = kept;
    let end = octets::least(begun.have, room.len());
    crate::listing::list_line(out, 0, begun.number, table, &room[..end]).unwrap_or(0)
}
