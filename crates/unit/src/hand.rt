// The frame at hand and the silence block, and what the card is handed of them.
use crate::line::Kind;

// Octets that are kept: they stand at the start of a room.
#[derive(Drop)]
struct Kept {
    room: [u8; 1700],
    size: usize,
}

impl Kept {
    fn none() -> Kept {
        Kept {
            room: [0u8; 1700],
            size: 0,
        }
    }

    // Keeps octets, which have room (crate::line), in place of those that were kept.
    fn keep(&mut self, octets: &[u8]) {
        let _ = octets::put_octets(&mut self.room, 0, octets);
        self.size = octets.len();
    }

    fn octets(&self) -> &[u8] {
        self.room.get(..self.size).unwrap_or(&[])
    }
}

#[derive(Drop)]
pub struct Held {
    frame: Kept,
    silence: Kept,
}

impl Held {
    // No octet of either.
    pub fn none() -> Held {
        Held {
            frame: Kept::none(),
            silence: Kept::none(),
        }
    }

    // `card=`: cid.
    fn card(&self, rt: &impl Print, table: &[u16; 256], cid: u8) {
        let mut source: u8 = 0;
        let handed = card::handing::hand(
            self.frame.octets(),
            self.silence.octets(),
            table,
            cid,
            &mut source,
        );
        console::print::number(rt, b"source=", u64::from(source));
        console::print::octets(rt, b"octets=", handed);
    }

    // A line of a kind; one that is not about the card changes nothing.
    pub fn take(&mut self, rt: &impl Print, kind: Kind, octets: &[u8], table: &[u16; 256]) {
        match kind {
            Kind::Frame => self.frame.keep(octets),
            Kind::Silence => self.silence.keep(octets),
            Kind::Card => self.card(rt, table, octets::octet(octets, 0)),
            _ => {}
        }
    }
}
