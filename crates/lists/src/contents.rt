// Legal contents of every kind, drawn from a seed (document 01, "Payload types").
ghost use Rattle.std.specs.Prelude.{◌≤◌};

use crate::body::Body;
use crate::draws;
use counts::{DataCount, DigitCount, SignallingCount, VoiceCount};
use digits::layout::{Digits, Window};
use fax::Command;
use record::syntax::{Record, Syntax};
use sid::Sid;

#[derive(Clone, Copy)]
pub struct Speech {
    pub sequence: VoiceCount,
    pub coding: u8,
    pub body: Body,
}

#[derive(Clone, Copy)]
pub struct Fragment {
    pub begins: bool,
    pub ends: bool,
    pub sequence: DataCount,
    pub body: Body,
}

#[derive(Clone, Copy)]
pub struct Relay {
    pub sequence: u8,
    pub stamp: Option<u16>,
    pub command: Command,
    pub body: Body,
}

#[derive(Clone, Copy)]
pub struct Seizure {
    pub alarm: bool,
    pub sequence: SignallingCount,
    pub samples: Body,
}

// The octets of a block: for pcm and g727 those of Annexes F and G by the coding type.
fn block(syntax: Syntax, coding: u8) -> u8 {
    let at = usize::from(coding);
    match syntax {
        Syntax::Acelp => 10,
        Syntax::Pcm => octets::octet(
            &[40, 35, 30, 40, 35, 30, 25, 20, 15, 10, 25, 20, 15, 10],
            at,
        ),
        Syntax::G727 => octets::octet(
            &[10, 5, 10, 15, 15, 20, 25, 15, 5, 10, 20, 25, 20, 5, 25],
            at,
        ),
        Syntax::G728 => 10,
        Syntax::G7231 | Syntax::Data | Syntax::Fax => 0,
    }
}

fn wide(octet: u8) -> usize
    ensures { result ≤ 255 }
{
    usize::from(octet)
}

fn times(blocks: u8, octets: u8) -> usize {
    wide(blocks) * wide(octets)
}

// A G.723.1 frame: the rate and the speech flag, never both, decide its octets.
fn g7231(state: u64) -> Body {
    let mut at = state;
    let flags = draws::below(&mut at, 3);
    let first = draws::octet(&mut at) & 252 | flags;
    let len: usize = if flags == 1 { 20 } else { 24 };
    Body {
        len,
        first,
        mask: 255,
        seed: at,
    }
}

fn blocks(rec: Record, coding: u8, state: u64) -> Body {
    crate::body::drawn(times(rec.m, block(rec.syntax, coding)), state)
}

// Speech of a record: with seq=0 there is no octet for a sequence.
pub fn draw_speech(rec: Record, seed: u64) -> Speech {
    let mut at = seed;
    let coding = draws::below(&mut at, voice::coding_count(rec.syntax));
    let drawn = draws::below(&mut at, 16);
    let sequence = VoiceCount(if rec.seq { drawn } else { 0 });
    let body = match rec.syntax {
        Syntax::G7231 => g7231(at),
        _ => blocks(rec, coding, at),
    };
    Speech {
        sequence,
        coding,
        body,
    }
}

// A fragment of so many octets.
pub fn draw_fragment(len: usize, seed: u64) -> Fragment {
    let mut at = seed;
    let begins = draws::flag(&mut at);
    let ends = draws::flag(&mut at);
    let sequence = DataCount(draws::number(&mut at) % 8192);
    Fragment {
        begins,
        ends,
        sequence,
        body: crate::body::drawn(len, at),
    }
}

// Above zero too, which comes back as 0.
fn level(state: &mut u64) -> i8 {
    let drawn = draws::octet(state);
    if drawn < 64 {
        return (drawn * 2) as i8;
    }
    levels::level_of(drawn % 32)
}

// An off window has a code too, of any number, which comes back as 0.
fn window(state: &mut u64) -> Window {
    let on = draws::flag(state);
    let edge = draws::below(state, 20);
    let drawn = draws::octet(state);
    let code = if on { drawn % 16 } else { drawn };
    Window { on, edge, code }
}

pub fn draw_digits(seed: u64) -> Digits {
    let mut at = seed;
    let sequence = DigitCount(draws::octet(&mut at));
    let level = level(&mut at);
    let current = window(&mut at);
    let recent = window(&mut at);
    let previous = window(&mut at);
    Digits {
        sequence,
        level,
        current,
        recent,
        previous,
    }
}

// The samples are thirty octets of four bits.
pub fn draw_seizure(seed: u64) -> Seizure {
    let mut at = seed;
    let alarm = draws::flag(&mut at);
    let sequence = SignallingCount(draws::below(&mut at, 128));
    let first = draws::below(&mut at, 16);
    Seizure {
        alarm,
        sequence,
        samples: Body {
            len: 30,
            first,
            mask: 15,
            seed: at,
        },
    }
}

pub fn draw_silence(syntax: Syntax, seed: u64) -> Sid {
    let mut at = seed;
    let sequence = VoiceCount(draws::below(&mut at, 16));
    let level = levels::level_of(draws::below(&mut at, 64));
    match syntax {
        Syntax::Pcm | Syntax::G727 => Sid::Noise { sequence, level },
        _ => Sid::Plain,
    }
}

// Fax on: a frequency beside modulation 0 alone.
fn on(state: &mut u64) -> Command {
    let hdlc = draws::flag(state);
    let modulation = draws::below(state, 12);
    let drawn = draws::number(state) % 32768 * 2 + 1;
    let frequency: u16 = if modulation == 0 { drawn } else { 0 };
    Command::On {
        hdlc,
        modulation,
        frequency,
    }
}

fn command(state: &mut u64) -> Command {
    match draws::below(state, 5) {
        0 => Command::Off,
        1 => on(state),
        2 => Command::Page,
        3 => Command::EndOfFrame,
        _ => Command::Abort,
    }
}

// The data octets of a command.
fn data_octets(command: Command, state: &mut u64) -> usize {
    match command {
        Command::Page => {
            let at = draws::below(state, 7) as usize;
            wide(octets::octet(&[3, 12, 24, 36, 48, 60, 72], at))
        }
        Command::EndOfFrame | Command::Abort => 3,
        _ => 0,
    }
}

fn may_lack_stamp(command: Command) -> bool {
    matches!(
        command,
        Command::Page | Command::EndOfFrame | Command::Abort
    )
}

fn stamp(command: Command, state: &mut u64) -> Option<u16> {
    let number = draws::number(state);
    if draws::flag(state) && may_lack_stamp(command) {
        return None;
    }
    Some(number)
}

pub fn draw_relay(seed: u64) -> Relay {
    let mut at = seed;
    let sequence = draws::below(&mut at, 16);
    let command = command(&mut at);
    let stamp = stamp(command, &mut at);
    let len = data_octets(command, &mut at);
    Relay {
        sequence,
        stamp,
        command,
        body: crate::body::drawn(len, at),
    }
}
