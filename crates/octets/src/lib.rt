// Octets in lent memory.
#![tactic(auto)]

pub mod text;

ghost use Rattle.std.specs.Prelude.{◌≡◌, ◌++◌, ◌+◌, ◌*◌, ◌≤◌, min, length, ltb, get_or};
ghost use Rattle.octets.specs.Room.{put, written, left_by};

use refusal::Refusal;

// An octet as a number of the machine's width.
pub fn wide(octet: u8) -> usize
    ensures { result ≡ octet }
{
    octet as usize
}

// Two octets as one number.
pub fn double(high: u8, low: u8) -> u16
    ensures { result ≡ high * 256 + low }
{
    high as u16 * 256 + low as u16
}

// The smaller of two numbers.
pub fn least(a: usize, b: usize) -> usize
    ensures { result ≡ min a b }
{
    if a < b { a } else { b }
}

// The octet at a place, and 0 past the end.
pub fn octet(octets: &[u8], at: usize) -> u8
    ensures { result ≡ get_or octets.now at 0 }
{
    if at < octets.len() { octets[at] } else { 0 }
}

// Whether so many octets, from a place on, exceed a room of this length.
pub fn exceeds(room: usize, at: usize, size: usize) -> bool
    ensures { result ≡ ltb room (at + size) }
{
    if room < at {
        return true;
    }
    room - at < size
}

// Writes a run of octets at a place of lent room: 21 exactly when they exceed what is left of it.
pub fn put_octets(room: &mut [u8], at: usize, octets: &[u8]) -> Result<usize, Refusal>
    ensures answer { result ≡ put room.old at octets.now }
    ensures holds { room.new ≡ left_by result room.old at octets.now }
{
    if exceeds(room.len(), at, octets.len()) {
        return Err(Refusal::RoomTooSmall);
    }
    room[at..at + octets.len()].copy_from_slice(octets);
    Ok(at + octets.len())
}

// Writes two runs of octets, one behind the other, at a place of lent room: 21 exactly when they exceed what is left of it.
pub fn put_both(room: &mut [u8], at: usize, head: &[u8], body: &[u8]) -> Result<usize, Refusal>
    ensures answer { result ≡ put room.old at (head.now ++ body.now) }
    ensures holds { room.new ≡ left_by result room.old at (head.now ++ body.now) }
{
    if room.len() < at {
        return Err(Refusal::RoomTooSmall);
    }
    let left = room.len() - at;
    if left < head.len() {
        return Err(Refusal::RoomTooSmall);
    }
    if left - head.len() < body.len() {
        return Err(Refusal::RoomTooSmall);
    }
    let next = at + head.len();
    room[at..next].copy_from_slice(head);
    room[next..next + body.len()].copy_from_slice(body);
    Ok(next + body.len())
}
