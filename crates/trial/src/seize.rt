// The signalling sender and the two signalling receivers.
use crate::line::Kind;
use refusal::Refusal;
use seized::{Appended, Receiver};
use seizing::{Entry, Sender};

#[derive(Clone, Copy)]
pub struct Seizing {
    sender: Sender,
    first: Receiver,
    second: Receiver,
}

// What a receiver answers to a payload: the carried periods are of ten samples each.
fn show(rt: &impl Print, answer: Result<Appended, Refusal>, receiver: &Receiver) {
    match answer {
        Ok(appended) => {
            console::print::number(rt, b"filled=", u64::from(appended.fills));
            console::print::octets(rt, b"with=", &[appended.fill]);
            console::print::number(rt, b"carried=", u64::from(appended.carried));
            for period in appended
                .periods
                .chunks(10)
                .take(usize::from(appended.carried))
            {
                console::print::octets(rt, b"period=", period);
            }
            console::print::number(rt, b"value=", u64::from(receiver.value));
            console::print::number(rt, b"alarm=", u64::from(receiver.alarm));
        }
        Err(refusal) => crate::line::refused(rt, refusal),
    }
}

// What a line of a kind does to one receiver that it names: `signalling=`, a payload; `fresh=`.
fn get(rt: &impl Print, kind: Kind, number: u64, receiver: &mut Receiver, payload: &[u8]) {
    match kind {
        Kind::Signalling => {
            console::print::number(rt, b"receiver=", number);
            let answer = receiver.receive(payload);
            show(rt, answer, receiver);
        }
        Kind::Fresh => *receiver = Receiver::fresh(),
        _ => {}
    }
}

// The entry of a line: who, alarm, ten samples.
fn entry(octets: &[u8]) -> Entry {
    let mut samples = [0u8; 10];
    let _ = octets::put_octets(&mut samples, 0, octets.get(2..).unwrap_or(octets));
    Entry {
        alarm: octets::octet(octets, 1) == 1,
        samples,
    }
}

impl Seizing {
    // As document 01 has them at their start, beside a sender from a start value.
    pub fn begin(sender: Sender) -> Seizing {
        Seizing {
            sender,
            first: Receiver::fresh(),
            second: Receiver::fresh(),
        }
    }

    // What a line of a kind does to the receivers that *who* names.
    fn hear(&mut self, rt: &impl Print, kind: Kind, who: u8, payload: &[u8]) {
        crate::line::each(who, &mut self.first, &mut self.second, |number, receiver| {
            get(rt, kind, number, receiver, payload)
        });
    }

    // `samples=`: an entry is sent. What is sent comes to the receivers that *who* names.
    fn samples(&mut self, rt: &impl Print, octets: &[u8]) {
        match self.sender.send(entry(octets)) {
            Err(refusal) => crate::line::refused(rt, refusal),
            Ok(None) => console::print::name(rt, b"unsent="),
            Ok(Some(sent)) => {
                let mut payload = [0u8; 16];
                // What is sent has sixteen octets, and no sample out of range.
                let _ = signalling::layout::put_signalling(&mut payload, 0, sent);
                console::print::octets(rt, b"sent=", &payload);
                self.hear(rt, Kind::Signalling, octets::octet(octets, 0), &payload);
            }
        }
    }

    // `start=`: the sender from a start value. A refused one leaves the sender.
    fn start(&mut self, rt: &impl Print, octets: &[u8]) {
        match Sender::start(octets::octet(octets, 0)) {
            Ok(sender) => {
                console::print::name(rt, b"started=");
                self.sender = sender;
            }
            Err(refusal) => crate::line::refused(rt, refusal),
        }
    }

    // A line of a kind; one that is not about seizure bits changes nothing.
    pub fn take(&mut self, rt: &impl Print, kind: Kind, octets: &[u8]) {
        match kind {
            Kind::Start => self.start(rt, octets),
            Kind::Samples => self.samples(rt, octets),
            _ => {
                let who = octets::octet(octets, 0);
                self.hear(rt, kind, who, octets.get(1..).unwrap_or(octets));
            }
        }
    }
}
