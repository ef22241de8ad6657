// A line after the provisioning text: a frame in hex (document 01, "Listing program").
#![tactic(auto)]

mod hex;

ghost use Rattle.std.specs.Prelude.{◌≡◌, length};
ghost use Rattle.octets.specs.Room.{written};
ghost use Rattle.hexline.specs.Line.{line_read, in_room, read_of, octets_of};

use octets::text::LF;
use refusal::Refusal;

const MOST_CHARACTERS: usize = 3200;

// Reads a line, with its LF where that is there: the octets of its frame stand at the start of `frame`, and it tells how many they
// are. 21 where they exceed that room.
#[tactic(auto, using(crate::proofs::LineCases::keyed), unfolding(crate::specs::Line::line_read))]
pub fn read_line(line: &[u8], frame: &mut [u8]) -> Result<usize, Refusal>
    ensures says { result ≡ read_of (in_room (length frame.old) (line_read line.now)) }
    ensures holds { frame.new ≡ written frame.old 0 (octets_of (in_room (length frame.old) (line_read line.now))) }
{
    if !octets::text::starts(line, b"frame=") {
        return Err(Refusal::HexMalformed);
    }
    let last = line.len() - 1;
    if line[last] != LF {
        if MOST_CHARACTERS < line.len() - 6 {
            return Err(Refusal::FieldTooLong);
        }
        return Err(Refusal::HexMalformed);
    }
    let count = last - 6;
    if MOST_CHARACTERS < count {
        return Err(Refusal::FieldTooLong);
    }
    if count % 2 == 1 {
        return Err(Refusal::HexMalformed);
    }
    if hex::any_other(&line[6..last]) {
        return Err(Refusal::HexMalformed);
    }
    if frame.len() < count / 2 {
        return Err(Refusal::RoomTooSmall);
    }
    hex::decode(&line[6..last], frame);
    Ok(count / 2)
}
