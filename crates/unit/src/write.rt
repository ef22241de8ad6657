// The lent frame: sub-frames written into it, and what the writer answers.
use crate::line::{Content, Kind};
use counts::{DataCount, VoiceCount};
use place::Writer;
use refusal::Refusal;

// The lent frame, how many octets of it are lent, and where the writer stands.
#[derive(Drop)]
pub struct Lent {
    frame: [u8; 1700],
    room: usize,
    writer: Writer,
}

// Writes the content of a line: last and cid stand first in every line.
fn write(
    content: Content,
    frame: &mut [u8],
    writer: Writer,
    table: &[u16; 256],
    octets: &[u8],
) -> Result<Writer, Refusal> {
    let last = crate::contents::set(octets, 0);
    let cid = octets::octet(octets, 1);
    match content {
        Content::Voice => write_voice(frame, writer, last, table, cid, octets),
        Content::Digits => {
            let digits = crate::contents::digits(octets);
            writer::signalled::write_digits(frame, writer, last, table, cid, digits)
        }
        Content::Signalling => {
            let signalling = crate::contents::signalling(octets);
            writer::signalled::write_signalling(frame, writer, last, table, cid, signalling)
        }
        Content::Fax => write_fax(frame, writer, last, table, cid, octets),
        Content::Sid => {
            let sid = crate::contents::sid(octets);
            writer::signalled::write_sid(frame, writer, last, table, cid, sid)
        }
        Content::Data => write_data(frame, writer, last, table, cid, octets),
    }
}

fn write_voice(
    frame: &mut [u8],
    writer: Writer,
    last: bool,
    table: &[u16; 256],
    cid: u8,
    octets: &[u8],
) -> Result<Writer, Refusal> {
    writer::primary::write_voice(
        frame,
        writer,
        last,
        table,
        cid,
        VoiceCount(octets::octet(octets, 2)),
        octets::octet(octets, 3),
        octets.get(4..).unwrap_or(octets),
    )
}

fn write_fax(
    frame: &mut [u8],
    writer: Writer,
    last: bool,
    table: &[u16; 256],
    cid: u8,
    octets: &[u8],
) -> Result<Writer, Refusal> {
    writer::signalled::write_fax(
        frame,
        writer,
        last,
        table,
        cid,
        octets::octet(octets, 2),
        crate::contents::stamp(octets),
        crate::contents::command(octets),
        octets.get(11..).unwrap_or(octets),
    )
}

fn write_data(
    frame: &mut [u8],
    writer: Writer,
    last: bool,
    table: &[u16; 256],
    cid: u8,
    octets: &[u8],
) -> Result<Writer, Refusal> {
    writer::primary::write_data(
        frame,
        writer,
        last,
        table,
        cid,
        crate::contents::set(octets, 2),
        crate::contents::set(octets, 3),
        DataCount(crate::line::pair(octets, 4)),
        octets.get(6..).unwrap_or(octets),
    )
}

impl Lent {
    // No octet is lent.
    pub fn none() -> Lent {
        Lent {
            frame: [0xeeu8; 1700],
            room: 0,
            writer: place::fresh(),
        }
    }

    // `room=`: every octet of the lent frame is `ee`.
    fn lend(&mut self, room: usize) {
        self.frame.fill(0xee);
        self.room = room.min(self.frame.len());
        self.writer = place::fresh();
    }

    // A sub-frame is written, and the writer printed; or the refusal, which leaves the writer where it was.
    fn written(&mut self, rt: &impl Print, content: Content, table: &[u16; 256], octets: &[u8]) {
        let room = self.room.min(self.frame.len());
        let writer = self.writer;
        match write(content, &mut self.frame[..room], writer, table, octets) {
            Ok(next) => {
                console::print::number(rt, b"at=", next.at as u64);
                console::print::number(rt, b"count=", next.count as u64);
                console::print::number(rt, b"done=", u64::from(next.done));
                self.writer = next;
            }
            Err(refusal) => {
                console::print::number(rt, b"refused=", u64::from(refusal.number()));
            }
        }
    }

    // `shown=`.
    fn show(&self, rt: &impl Print) {
        console::print::octets(rt, b"lent=", self.frame.get(..self.room).unwrap_or(&[]));
    }

    // A line of a kind; one that is not about the lent frame changes nothing.
    pub fn take(&mut self, rt: &impl Print, kind: Kind, octets: &[u8], table: &[u16; 256]) {
        match kind {
            Kind::Room => self.lend(usize::from(crate::line::pair(octets, 0))),
            Kind::Shown => self.show(rt),
            Kind::Written(content) => self.written(rt, content, table, octets),
            _ => {}
        }
    }
}
