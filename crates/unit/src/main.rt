// Hands a voice card what frames have for it, and writes sub-frames into a lent frame: a provisioning text and lines in, answers out,
// as docs/UNIT.md says.
#![tactic(auto)]

mod contents;
mod hand;
mod line;
mod write;

use crate::hand::Held;
use crate::write::Lent;
use console::input::Input;
use std::io::Read;

// What the card can be handed, and what is written.
#[derive(Drop)]
struct Stands {
    held: Held,
    lent: Lent,
}

impl Stands {
    // A line without its LF; the octets of the longest have room.
    fn answer(&mut self, rt: &impl Print, number: u64, text: &[u8], table: &[u16; 256]) {
        let mut room = [0u8; 2000];
        match crate::line::known(text, &mut room) {
            Some(stated) => {
                let octets = &room[..stated.size];
                self.held.take(rt, stated.kind, octets, table);
                self.lent.take(rt, stated.kind, octets, table);
            }
            None => console::lines::malformed(rt, number),
        }
    }
}

// All lines. No run uses the numbers up.
fn run(
    rt: &impl Print,
    reader: &mut impl Read,
    block: &mut [u8],
    text: &mut [u8],
    begins: Input,
    table: &[u16; 256],
) {
    let mut stands = Stands {
        held: Held::none(),
        lent: Lent::none(),
    };
    let mut input = begins;
    for number in 1..=u64::MAX {
        let given = console::lines::read(reader, block, text, input);
        let Some(size) = given.line else {
            return;
        };
        input = given.input;
        stands.answer(rt, number, &text[..size], table);
    }
}

// A line has up to 4,000 characters.
fn main(rt: HostRuntime) {
    let mut reader = rt.stdin();
    let mut block = [0u8; 65536];
    let mut table = [0u16; 256];
    let start = streaming::input::begin(&rt, &mut reader, b"unit", &mut block, &mut table);
    if start.text.is_ok() {
        let behind = start.behind;
        let input = Input {
            taken: behind.from,
            have: behind.to,
        };
        let mut text = [0u8; 4000];
        run(&rt, &mut reader, &mut block, &mut text, input, &table);
    }
}
