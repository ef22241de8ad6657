// The contents that a line states.
use counts::{DigitCount, SignallingCount, VoiceCount};
use digits::layout::{Digits, Window};
use fax::Command;
use sid::Sid;
use signalling::layout::Signalling;

// Whether an octet is 1.
pub fn set(octets: &[u8], at: usize) -> bool {
    octets::octet(octets, at) == 1
}

fn window(on: bool, edge: u8, code: u8) -> Window {
    Window { on, edge, code }
}

// sequence, level, then three times on, edge, code
pub fn digits(octets: &[u8]) -> Digits {
    Digits {
        sequence: DigitCount(octets::octet(octets, 2)),
        level: console::hex::signed(octets::octet(octets, 3)),
        current: window(
            set(octets, 4),
            octets::octet(octets, 5),
            octets::octet(octets, 6),
        ),
        recent: window(
            set(octets, 7),
            octets::octet(octets, 8),
            octets::octet(octets, 9),
        ),
        previous: window(
            set(octets, 10),
            octets::octet(octets, 11),
            octets::octet(octets, 12),
        ),
    }
}

// alarm, sequence, thirty samples
pub fn signalling(octets: &[u8]) -> Signalling {
    let mut samples = [0u8; 30];
    let _ = octets::put_octets(&mut samples, 0, octets.get(4..).unwrap_or(octets));
    Signalling {
        alarm: set(octets, 2),
        sequence: SignallingCount(octets::octet(octets, 3)),
        samples,
    }
}

// sequence, stamped, stamp high, stamp low, command, hdlc, modulation, frequency high, frequency low
pub fn stamp(octets: &[u8]) -> Option<u16> {
    set(octets, 3).then_some(crate::line::pair(octets, 4))
}

pub fn command(octets: &[u8]) -> Command {
    match octets::octet(octets, 6) {
        0 => Command::Off,
        1 => Command::On {
            hdlc: set(octets, 7),
            modulation: octets::octet(octets, 8),
            frequency: crate::line::pair(octets, 9),
        },
        2 => Command::Page,
        3 => Command::EndOfFrame,
        _ => Command::Abort,
    }
}

// noise, sequence, level
pub fn sid(octets: &[u8]) -> Sid {
    if set(octets, 2) {
        return Sid::Noise {
            sequence: VoiceCount(octets::octet(octets, 3)),
            level: console::hex::signed(octets::octet(octets, 4)),
        };
    }
    Sid::Plain
}
