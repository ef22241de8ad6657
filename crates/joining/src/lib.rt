// Writing the header of a sub-frame in its shortest form (document 01, "Frame and sub-frame").
#![tactic(auto)]

ghost use Rattle.std.specs.Prelude.{◌≡◌, ◌-◌, length};
ghost use Rattle.joining.specs.Joining.{shortest_header, header_size, header_put};
ghost use Rattle.octets.specs.Room.{left_by};

use refusal::Refusal;

// The octets of a header in its shortest form.
#[tactic(auto, unfolding(crate::specs::Joining::header_size))]
pub fn header_size(cid: u8, ptype: u8, last: bool) -> usize
    ensures { result ≡ header_size cid ptype last }
{
    // EI only when it is needed, and LI on all but the last.
    let ei = 63 < cid || ptype != 0;
    1 + usize::from(ei) + usize::from(!last)
}

// Writes a header in its shortest form at a place of lent room. `len` is the payload's length, looked at where it is not last.
pub fn put_header(
    room: &mut [u8],
    at: usize,
    cid: u8,
    ptype: u8,
    last: bool,
    len: u8,
) -> Result<usize, Refusal>
    ensures answer { result ≡ header_put (length room.old - at) at cid ptype last }
    ensures holds { room.new ≡ left_by result room.old at (shortest_header cid ptype last len) }
{
    if cid < 4 {
        return Err(Refusal::CidReserved);
    }
    if 15 < ptype {
        return Err(Refusal::ValueOutOfRange);
    }
    if room.len() < at {
        return Err(Refusal::RoomTooSmall);
    }
    if room.len() - at < header_size(cid, ptype, last) {
        return Err(Refusal::RoomTooSmall);
    }
    let low = cid % 64;
    let octet1a = cid / 64 * 64 + ptype;
    if octet1a == 0 {
        if last {
            room[at] = low;
            return Ok(at + 1);
        }
        room[at] = 64 + low;
        room[at + 1] = len;
        return Ok(at + 2);
    }
    if last {
        room[at] = 128 + low;
        room[at + 1] = octet1a;
        return Ok(at + 2);
    }
    room[at] = 192 + low;
    room[at + 1] = octet1a;
    room[at + 2] = len;
    Ok(at + 3)
}
