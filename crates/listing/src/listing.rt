// The listing of a line (document 01, "Listing program").
ghost use Rattle.std.specs.Prelude.{◌≡◌, ◌+◌, ◌≤◌, length, IfOk};
ghost use Rattle.octets.specs.Room.{left_by};
ghost use Rattle.header.specs.Header.{end_of};
ghost use Rattle.frame.specs.Opening.{opening};
ghost use Rattle.listing.specs.Listing.{four_fields, sub_listing, subs_listing, frame_listing, line_listing, listed};
ghost use Rattle.listing.specs.Private.{listing_of};
ghost use Rattle.printing.specs.Room.{Appended};

use header::SubFrame;
use printing::field::{put_field, put_octet_field};
use printing::refused::put_refused;
use refusal::Refusal;

// The room that is asked for a listing: 27 octets for `frame=`, 26 for `subs=`, 104 for each of 64 sub-frames.
pub const MOST_LISTED: usize = 6709;

fn put_four(out: &mut [u8], at: usize, cid: u8, ptype: u8, len: usize, number: u8) -> usize
    requires { at + 104 ≤ length out.old }
    ensures { Appended out.old at (four_fields cid ptype len number) 104 out.new result }
{
    let past_cid = put_octet_field(out, at, b"cid=", cid);
    let past_type = put_octet_field(out, past_cid, b"type=", ptype);
    let past_len = put_field(out, past_type, b"len=", len as u64);
    put_octet_field(out, past_len, b"answer=", number)
}

// A sub-frame of the frame.
fn put_sub(out: &mut [u8], at: usize, table: &[u16; 256], frame: &[u8], sub: SubFrame) -> usize
    requires at_in_bounds { at + 104 ≤ length out.old }
    requires sub_in_bounds { end_of sub ≤ length frame.now }
    requires frame_len_bound { length frame.now ≤ 1600 }
    ensures { Appended out.old at (sub_listing table.now frame.now sub) 104 out.new result }
{
    let end = sub.start + sub.len;
    let found = record::table::record_of(table, sub.cid);
    let number = match payload::check::check_payload(found, sub.ptype, &frame[sub.start..end]) {
        Ok(()) => refusal::SOUND,
        Err(refusal) => refusal.number(),
    };
    put_four(out, at, sub.cid, sub.ptype, sub.len, number)
}

// The sub-frames of a frame that opens, header by header.
fn put_subs(out: &mut [u8], at: usize, table: &[u16; 256], frame: &[u8], count: usize) -> usize
    requires at_in_bounds { at + 6656 ≤ length out.old }
    requires frame_len_bound { length frame.now ≤ 1600 }
    requires count_value { count ≡ length (opening frame.now).subs }
    ensures { Appended out.old at (subs_listing table.now frame.now (opening frame.now).subs) 6656 out.new result }
{
    let mut next = at;
    let mut place: usize = 0;
    for _ in 0..count {
        let sub = header::sub_at(frame, place);
        next = put_sub(out, next, table, frame, sub);
        place = sub.start + sub.len;
    }
    next
}

// A frame, as the frame number n.
fn put_frame(out: &mut [u8], at: usize, n: u64, table: &[u16; 256], frame: &[u8]) -> usize
    requires at_in_bounds { at + 6709 ≤ length out.old }
    requires frame_len_bound { length frame.now ≤ 1600 }
    ensures { Appended out.old at (frame_listing n table.now frame.now) 6709 out.new result }
{
    match frame::check(frame) {
        Ok(checked) => {
            let past_frame = put_field(out, at, b"frame=", n);
            let past_subs = put_field(out, past_frame, b"subs=", checked.count as u64);
            put_subs(out, past_subs, table, frame, checked.count)
        }
        Err(refused) => put_refused(out, at, n, refused.refusal.number(), refused.at),
    }
}

// What a line holds, whose octets stand at the start of `frame`, as the frame number n.
pub(crate) fn put_read(
    out: &mut [u8],
    at: usize,
    n: u64,
    table: &[u16; 256],
    read: Result<usize, Refusal>,
    frame: &[u8],
) -> usize
    requires at_in_bounds { at + 6709 ≤ length out.old }
    requires octets_in_bounds { IfOk read (λ size. size ≤ length frame.now) }
    requires frame_len_bound { length frame.now ≤ 1600 }
    ensures { Appended out.old at (listing_of n table.now read frame.now) 6709 out.new result }
{
    match read {
        Ok(size) => put_frame(out, at, n, table, &frame[..size]),
        Err(refusal) => put_refused(out, at, n, refusal.number(), 0),
    }
}

// Lists a line, with its LF where that is there, as the frame number n, into room from a place on.
pub(crate) fn list_line(
    out: &mut [u8],
    at: usize,
    n: u64,
    table: &[u16; 256],
    line: &[u8],
) -> Result<usize, Refusal>
    ensures answer { result ≡ listed out.old at (line_listing n table.now line.now) }
    ensures holds { out.new ≡ left_by result out.old at (line_listing n table.now line.now) }
{
    if octets::exceeds(out.len(), at, MOST_LISTED) {
        return Err(Refusal::RoomTooSmall);
    }
    let mut frame = [0u8; 1600];
    let read = hexline::read_line(line, &mut frame);
    Ok(put_read(out, at, n, table, read, &frame))
}
