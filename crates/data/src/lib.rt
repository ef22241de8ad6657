// Data payloads, read and written (document 01, "Payload types": data; FRF.11, Annex C).
#![tactic(auto)]

ghost use Rattle.std.specs.Prelude.{◌≡◌, Bool, cond, ◌≤◌};
ghost use Rattle.octets.specs.Made.{fit_of, put_made, left_made};
ghost use Rattle.data.specs.Data.{data_read, front, data_made};

use counts::DataCount;
use refusal::Refusal;

// The largest sequence of 13 bits.
const MOST_SEQUENCE: u16 = 8191;

// What a data payload tells of its fragment, whose octets stand behind the first two.
#[derive(Clone, Copy, Debug, PartialEq, Eq)]
pub struct Fragment {
    pub begins: bool,
    pub ends: bool,
    pub sequence: DataCount,
}

// Reads a data payload.
#[tactic(auto, unfolding(crate::specs::Data::data_read))]
pub fn read_data(payload: &[u8]) -> Result<Fragment, Refusal>
    ensures { result ≡ data_read payload.now }
{
    if payload.len() < 3 {
        return Err(Refusal::LengthWrong);
    }
    let first = payload[0];
    if first / 32 % 2 == 1 {
        return Err(Refusal::ReservedCode);
    }
    Ok(Fragment {
        begins: first / 128 == 1,
        ends: first / 64 % 2 == 1,
        sequence: DataCount(octets::double(first % 32, payload[1])),
    })
}

// The octets of a data payload with this body, or the refusal, whatever B and E are.
#[tactic(auto, unfolding(crate::specs::Data::data_made))]
pub fn fit_data(sequence: DataCount, body: &[u8]) -> Result<usize, Refusal>
    ensures { (begins ends : Bool) → result ≡ fit_of (data_made begins ends sequence.0 body.now) }
{
    if body.is_empty() {
        return Err(Refusal::LengthWrong);
    }
    if MOST_SEQUENCE < sequence.0 {
        return Err(Refusal::ValueOutOfRange);
    }
    Ok(2 + body.len())
}

// A bit of an octet at its place, or 0.
fn bit(set: bool, place: u8) -> u8
    ensures { result ≡ cond set place 0 }
{
    if set { place } else { 0 }
}

// The two octets before the body; of the sequence there are 13 bits.
fn front(begins: bool, ends: bool, sequence: DataCount) -> [u8; 2]
    requires { sequence.0 ≤ 8191 }
    ensures { result ≡ front begins ends sequence.0 }
{
    let high = (sequence.0 / 256) as u8;
    let low = (sequence.0 % 256) as u8;
    [bit(begins, 128) + bit(ends, 64) + high, low]
}

// Writes a data payload at a place of lent room.
pub fn put_data(
    room: &mut [u8],
    at: usize,
    begins: bool,
    ends: bool,
    sequence: DataCount,
    body: &[u8],
) -> Result<usize, Refusal>
    ensures answer { result ≡ put_made room.old at (data_made begins ends sequence.0 body.now) }
    ensures holds { room.new ≡ left_made room.old at (data_made begins ends sequence.0 body.now) }
{
    fit_data(sequence, body)?;
    let head = front(begins, ends, sequence);
    octets::put_both(room, at, &head, body)
}
