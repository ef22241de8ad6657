// The digit sender and the two digit receivers.
use crate::line::Kind;
use dialled::{Appended, Receiver};
use dialling::{Entry, Sender};
use digits::layout::Window;
use refusal::Refusal;

#[derive(Clone, Copy)]
pub struct Dialling {
    sender: Sender,
    first: Receiver,
    second: Receiver,
}

// A window as it is printed: type, edge, code.
fn window(rt: &impl Print, name: &[u8], window: Window) {
    console::print::octets(rt, name, &[u8::from(window.on), window.edge, window.code]);
}

// What a receiver answers to a payload.
fn show(rt: &impl Print, answer: Result<Appended, Refusal>) {
    match answer {
        Ok(appended) => {
            console::print::number(rt, b"filled=", u64::from(appended.fills));
            window(rt, b"with=", appended.fill);
            console::print::number(rt, b"carried=", u64::from(appended.carried));
            for period in appended.periods.iter().take(usize::from(appended.carried)) {
                window(rt, b"period=", *period);
            }
        }
        Err(refusal) => crate::line::refused(rt, refusal),
    }
}

// What a line of a kind does to one receiver that it names: `digits=`, a payload; `voice=`; `fresh=`.
fn get(rt: &impl Print, kind: Kind, number: u64, receiver: &mut Receiver, payload: &[u8]) {
    match kind {
        Kind::Digits => {
            console::print::number(rt, b"receiver=", number);
            show(rt, receiver.receive(payload));
        }
        Kind::Voice => receiver.hear_voice(),
        Kind::Fresh => *receiver = Receiver::fresh(),
        _ => {}
    }
}

// The entry of a line: who, type, code, edge, level.
fn entry(octets: &[u8]) -> Entry {
    Entry {
        on: octets::octet(octets, 1) == 1,
        code: octets::octet(octets, 2),
        edge: octets::octet(octets, 3),
        level: console::hex::signed(octets::octet(octets, 4)),
    }
}

impl Dialling {
    // As document 01 has them at their start.
    pub fn begin() -> Dialling {
        Dialling {
            sender: Sender::fresh(),
            first: Receiver::fresh(),
            second: Receiver::fresh(),
        }
    }

    // What a line of a kind does to the receivers that *who* names.
    fn hear(&mut self, rt: &impl Print, kind: Kind, who: u8, payload: &[u8]) {
        crate::line::each(who, &mut self.first, &mut self.second, |number, receiver| {
            get(rt, kind, number, receiver, payload)
        });
    }

    // `digit=`: an entry is sent. What is sent comes to the receivers that *who* names.
    fn digit(&mut self, rt: &impl Print, octets: &[u8]) {
        match self.sender.send(entry(octets)) {
            Err(refusal) => crate::line::refused(rt, refusal),
            Ok(None) => console::print::name(rt, b"unsent="),
            Ok(Some(sent)) => {
                let mut payload = [0u8; 8];
                // It is written: crates/dialling/specs/SenderClaims.antt.
                let _ = digits::layout::put_digits(&mut payload, 0, sent);
                console::print::octets(rt, b"sent=", &payload);
                self.hear(rt, Kind::Digits, octets::octet(octets, 0), &payload);
            }
        }
    }

    // A line of a kind; one that is not about digits changes nothing.
    pub fn take(&mut self, rt: &impl Print, kind: Kind, octets: &[u8]) {
        match kind {
            Kind::Digit => self.digit(rt, octets),
            _ => {
                let who = octets::octet(octets, 0);
                self.hear(rt, kind, who, octets.get(1..).unwrap_or(octets));
            }
        }
    }
}
