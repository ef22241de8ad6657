// Sends digits and seizure bits, loses some payloads and replays the rest: lines in, answers out, as docs/TRIAL.md says.
#![tactic(auto)]

mod dial;
mod line;
mod seize;

use crate::dial::Dialling;
use crate::seize::Seizing;
use console::input::Input;
use seizing::Sender;
use std::io::Read;

// The senders and receivers of both kinds.
#[derive(Clone, Copy)]
struct Parties {
    dialling: Dialling,
    seizing: Seizing,
}

impl Parties {
    // A line without its LF; the octets of the longest have room.
    fn answer(&mut self, rt: &impl Print, number: u64, text: &[u8]) {
        let mut room = [0u8; 2000];
        match crate::line::known(text, &mut room) {
            Some(stated) => {
                let octets = &room[..stated.size];
                self.dialling.take(rt, stated.kind, octets);
                self.seizing.take(rt, stated.kind, octets);
            }
            None => console::lines::malformed(rt, number),
        }
    }
}

// All lines. No run uses the numbers up.
fn run(
    rt: &impl Print,
    reader: &mut impl Read,
    block: &mut [u8],
    text: &mut [u8],
    parties: &mut Parties,
) {
    let mut input = Input { taken: 0, have: 0 };
    for number in 1..=u64::MAX {
        let given = console::lines::read(reader, block, text, input);
        let Some(size) = given.line else {
            return;
        };
        input = given.input;
        parties.answer(rt, number, &text[..size]);
    }
}

// A line has up to 4,000 characters.
fn main(rt: HostRuntime) {
    let mut block = [0u8; 4096];
    let mut text = [0u8; 4000];
    // The start value 0 is allowed.
    if let Ok(sender) = Sender::start(0) {
        let mut parties = Parties {
            dialling: Dialling::begin(),
            seizing: Seizing::begin(sender),
        };
        run(&rt, &mut rt.stdin(), &mut block, &mut text, &mut parties);
    }
}
