// The senders and receivers, a step at a time.
use crate::fold::{flag, fold, octet, window, windows};
use crate::items::Works;
use digits::layout::Digits;
use faxing::Did;
use refusal::Refusal;
use signalling::layout::Signalling;

const NOTHING: u64 = 300;

pub fn digits(acc: u64, digits: Digits) -> u64 {
    let front = crate::fold::level(octet(acc, digits.sequence.0), digits.level);
    windows(front, digits.current, digits.recent, digits.previous)
}

pub fn signalling(acc: u64, signalling: Signalling) -> u64 {
    let front = fold(
        fold(acc, flag(signalling.alarm)),
        u64::from(signalling.sequence.0),
    );
    crate::fold::samples(front, signalling.samples)
}

// A level of 0 to -63 dBm0, and one above zero.
pub fn level_in(octet: u8) -> i8 {
    if octet < 128 {
        return levels::level_of(octet);
    }
    5
}

// The entry of four octets.
fn digit_entry(item: &[u8]) -> dialling::Entry {
    dialling::Entry {
        on: octets::octet(item, 0) % 2 == 1,
        code: octets::octet(item, 1),
        edge: octets::octet(item, 2),
        level: level_in(octets::octet(item, 3)),
    }
}

fn sending(acc: u64, answer: Result<Option<Digits>, Refusal>) -> u64 {
    match answer {
        Err(refusal) => octet(acc, refusal.number()),
        Ok(None) => fold(acc, NOTHING),
        Ok(Some(payload)) => digits(acc, payload),
    }
}

// What a digit receiver appends: beside a refusal, nothing.
fn received(acc: u64, answer: Result<dialled::Appended, Refusal>) -> u64 {
    match answer {
        Ok(appended) => appended_digits(octet(acc, refusal::SOUND), appended),
        Err(refusal) => {
            let off = digits::layout::off_window();
            let nothing = dialled::Appended {
                fills: 0,
                fill: off,
                carried: 0,
                periods: [off; 3],
            };
            appended_digits(octet(acc, refusal.number()), nothing)
        }
    }
}

fn appended_digits(acc: u64, appended: dialled::Appended) -> u64 {
    let [first, second, third] = appended.periods;
    let filled = octet(
        window(octet(acc, appended.fills), appended.fill),
        appended.carried,
    );
    windows(filled, first, second, third)
}

// The entry of eleven octets; its ten samples are copied as a length that the compiler knows.
fn signalling_entry(item: &[u8]) -> seizing::Entry {
    let mut samples = [0u8; 10];
    if let Some(ten) = item.get(1..11) {
        samples.copy_from_slice(ten);
    }
    seizing::Entry {
        alarm: octets::octet(item, 0) % 2 == 1,
        samples,
    }
}

fn sent(acc: u64, answer: Result<Option<Signalling>, Refusal>) -> u64 {
    match answer {
        Err(refusal) => octet(acc, refusal.number()),
        Ok(None) => fold(acc, NOTHING),
        Ok(Some(payload)) => signalling(acc, payload),
    }
}

// What a signalling receiver appends: beside a refusal, nothing.
fn seized(acc: u64, answer: Result<seized::Appended, Refusal>) -> u64 {
    match answer {
        Ok(appended) => appended_signalling(octet(acc, refusal::SOUND), appended),
        Err(refusal) => {
            let nothing = seized::Appended {
                fills: 0,
                fill: 0,
                carried: 0,
                periods: [0u8; 30],
            };
            appended_signalling(octet(acc, refusal.number()), nothing)
        }
    }
}

fn appended_signalling(acc: u64, appended: seized::Appended) -> u64 {
    let filled = octet(
        octet(octet(acc, appended.fills), appended.fill),
        appended.carried,
    );
    crate::fold::samples(filled, appended.periods)
}

// The items as entries to one digit sender.
fn send_digits(items: &[u8], works: Works) -> u64 {
    let mut sender = dialling::Sender::fresh();
    crate::items::each(items, works, |acc, item| {
        sending(acc, sender.send(digit_entry(item)))
    })
}

// The items as payloads to one digit receiver.
fn receive_digits(items: &[u8], works: Works) -> u64 {
    let mut receiver = dialled::Receiver::fresh();
    crate::items::each(
        items,
        works,
        |acc, item| received(acc, receiver.receive(item)),
    )
}

// The items as entries to one signalling sender; the start value 0 is allowed.
fn send_signalling(items: &[u8], works: Works) -> u64 {
    let Ok(mut sender) = seizing::Sender::start(0) else {
        return crate::fold::FIRST;
    };
    crate::items::each(items, works, |acc, item| {
        sent(acc, sender.send(signalling_entry(item)))
    })
}

// The items as payloads to one signalling receiver.
fn receive_signalling(items: &[u8], works: Works) -> u64 {
    let mut receiver = seized::Receiver::fresh();
    crate::items::each(items, works, |acc, item| {
        let folded = seized(acc, receiver.receive(item));
        fold(octet(folded, receiver.value), flag(receiver.alarm))
    })
}

// What modulation-on and -off bring: HDLC, modulation, frequency and stamp, 0 where there is none.
fn modulated(acc: u64, hdlc: bool, modulation: u8, frequency: u16, stamp: u16) -> u64 {
    fold(
        fold(
            octet(fold(acc, flag(hdlc)), modulation),
            u64::from(frequency),
        ),
        u64::from(stamp),
    )
}

fn done(acc: u64, did: Did) -> u64 {
    match did {
        Did::Nothing => modulated(octet(acc, 0), false, 0, 0, 0),
        Did::Began {
            hdlc,
            modulation,
            frequency,
            stamp,
        } => modulated(octet(acc, 1), hdlc, modulation, frequency, stamp),
        Did::Stopped(stamp) => modulated(octet(acc, 2), false, 0, 0, stamp),
        Did::Added => modulated(octet(acc, 3), false, 0, 0, 0),
        Did::Ended => modulated(octet(acc, 4), false, 0, 0, 0),
        Did::Aborted => modulated(octet(acc, 5), false, 0, 0, 0),
    }
}

// The octets that are handed on.
fn page(start: u64, octets: &[u8], count: u8) -> u64 {
    let mut acc = start;
    for x in octets.iter().take(usize::from(count)) {
        acc = octet(acc, *x);
    }
    acc
}

// What the fax replay hands on; beside a refusal nothing, and nothing is done.
fn faxed(acc: u64, answer: Result<faxing::Handed, Refusal>) -> u64 {
    match answer {
        Ok(handed) => {
            let said = fold(octet(acc, refusal::SOUND), flag(handed.gap));
            // A copy of their own, which the compiler keeps apart from the rest.
            let octets = handed.octets;
            let paged = page(octet(said, handed.count), &octets, handed.count);
            done(paged, handed.did)
        }
        Err(refusal) => {
            let said = fold(octet(acc, refusal.number()), flag(false));
            done(octet(said, 0), Did::Nothing)
        }
    }
}

// The items as payloads to one fax replay.
fn receive_fax(items: &[u8], works: Works) -> u64 {
    let mut receiver = faxing::Receiver::fresh();
    crate::items::each(items, works, |acc, item| faxed(acc, receiver.receive(item)))
}

// The work of a row, by its letter; `n` is the walk over the items alone.
pub fn work_of(row: u8, items: &[u8], works: Works) -> u64 {
    match row {
        b'd' => send_digits(items, works),
        b'e' => receive_digits(items, works),
        b's' => send_signalling(items, works),
        b't' => receive_signalling(items, works),
        b'x' => receive_fax(items, works),
        b'n' => crate::items::each(items, works, |acc, item| octet(acc, octets::octet(item, 0))),
        _ => crate::fold::FIRST,
    }
}
