// Where the writer stands, and what it tests before a sub-frame's payload (document 01, "Refusal numbers": "Its order: 24, 4,
// 11 to 16, 22, 23, 21").
#![tactic(auto)]

ghost use Rattle.std.specs.Prelude.{◌≡◌, ◌+◌};
ghost use Rattle.record.specs.Record.{found_at};
ghost use Rattle.place.specs.Place.{fresh_writer, channel_for, too_long, full, placed, entering};

use payload::layout::Kind;
use record::syntax::Record;
use refusal::Refusal;

// The largest payload that is not last, by its length octet.
const MOST_NOT_LAST: usize = 255;

// Where the writer stands: the octets and the sub-frames written, and whether the last one is among them. A caller
// may hand in any value.
#[derive(Clone, Copy, Debug, PartialEq, Eq)]
pub struct Writer {
    pub at: usize,
    pub count: usize,
    pub done: bool,
}

// What a sub-channel takes a content as: its record, and the content's payload type there.
#[derive(Clone, Copy, Debug, PartialEq, Eq)]
pub struct Channel {
    pub rec: Record,
    pub ptype: u8,
}

// The place of a sub-frame: where the payload begins, its octets, and the writer after it.
#[derive(Clone, Copy, Debug, PartialEq, Eq)]
pub struct Place {
    pub start: usize,
    pub len: usize,
    pub next: Writer,
}

// The writer at the start of a frame.
pub fn fresh() -> Writer
    ensures { result ≡ fresh_writer }
{
    Writer {
        at: 0,
        count: 0,
        done: false,
    }
}

// 24, 4, 11, 12: what the sub-channel takes a content of this kind as.
#[tactic(auto, unfolding(crate::specs::Place::channel_for))]
pub fn channel_for(
    writer: Writer,
    table: &[u16; 256],
    cid: u8,
    kind: Kind,
) -> Result<Channel, Refusal>
    ensures { result ≡ channel_for writer (found_at table.now cid) cid kind }
{
    if writer.done {
        return Err(Refusal::AlreadyLast);
    }
    if cid < 4 {
        return Err(Refusal::CidReserved);
    }
    let found = record::table::record_of(table, cid);
    let Some(rec) = found else {
        return Err(Refusal::NotProvisioned);
    };
    let ptype = payload::layout::type_for(found, kind)?;
    Ok(Channel { rec, ptype })
}

// 22: over 255 octets and not last.
fn too_long(last: bool, len: usize) -> bool
    ensures { result ≡ too_long last len }
{
    !last && MOST_NOT_LAST < len
}

// 23: a frame that would pass 64 sub-frames or, with a header and a payload of so many octets, 1,600 octets.
fn full(writer: Writer, header: usize, len: usize) -> bool
    ensures { result ≡ full writer (writer.at + header + len) }
{
    frame::MOST_SUB_FRAMES <= writer.count
        || octets::exceeds(frame::MOST_OCTETS, writer.at, header)
        || octets::exceeds(frame::MOST_OCTETS, writer.at + header, len)
}

// 22, 23, 21: where a payload of so many octets begins, behind its header, and the writer after it.
#[tactic(auto, unfolding(crate::specs::Place::placed))]
fn place_for(
    room: usize,
    writer: Writer,
    last: bool,
    cid: u8,
    ptype: u8,
    len: usize,
) -> Result<Place, Refusal>
    ensures { result ≡ placed room writer last cid ptype len }
{
    if too_long(last, len) {
        return Err(Refusal::TooLongNotLast);
    }
    let header = joining::header_size(cid, ptype, last);
    if full(writer, header, len) {
        return Err(Refusal::FrameFull);
    }
    let start = writer.at + header;
    let end = start + len;
    if room < end {
        return Err(Refusal::RoomTooSmall);
    }
    let next = Writer {
        at: end,
        count: writer.count + 1,
        done: last,
    };
    Ok(Place { start, len, next })
}

// What the fit of a content refuses, told in any form; else 22, 23, 21, or its place.
pub fn enter<E>(
    room: usize,
    writer: Writer,
    last: bool,
    cid: u8,
    ptype: u8,
    fit: Result<usize, E>,
) -> Result<Result<Place, Refusal>, E>
    ensures { result ≡ entering room writer last cid ptype fit }
{
    match fit {
        Ok(len) => Ok(place_for(room, writer, last, cid, ptype, len)),
        Err(unfit) => Err(unfit),
    }
}
