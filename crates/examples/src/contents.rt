// Payloads read (document 01, "Payload types"): the refusal number, or 0. Payloads and frames written ("Refusal numbers" and "Bench
// examples"): the octets they take, or the refusal number.
use crate::line;
use counts::{DataCount, DigitCount, SignallingCount, VoiceCount};
use digits::layout::{Digits, Window};
use fax::Command;
use place::Writer;
use record::syntax::{Record, Syntax};
use refusal::Refusal;
use sid::Sid;
use signalling::layout::Signalling;

pub fn take(rt: &impl Print, line: &[u8], table: &[u16; 256]) {
    let letter = octets::octet(line, 0);
    let o = line::octets_of(line);
    match letter {
        b'c' => checked(rt, check(&o, table)),
        b'w' => written(rt, frame(&o, table)),
        _ => fits(rt, fit(letter, &o)),
    }
}

fn number(rt: &impl Print, number: u8) {
    console::print::number(rt, b"", u64::from(number));
}

fn count(rt: &impl Print, octets: usize) {
    let _ = print!(rt; "{octets}");
    console::print::name(rt, b" octets");
}

// The refusal number, or 0.
fn checked(rt: &impl Print, answer: Result<(), Refusal>) {
    match answer {
        Ok(()) => number(rt, refusal::SOUND),
        Err(refusal) => number(rt, refusal.number()),
    }
}

fn fits(rt: &impl Print, answer: Result<usize, Refusal>) {
    match answer {
        Ok(octets) => count(rt, octets),
        Err(refusal) => number(rt, refusal.number()),
    }
}

fn written(rt: &impl Print, answer: Result<Writer, Refusal>) {
    match answer {
        Ok(writer) => count(rt, writer.at),
        Err(refusal) => number(rt, refusal.number()),
    }
}

// The octets from a place on, so many by two octets of size.
fn body(o: &[u8; 600], at: usize, high: u8, low: u8) -> &[u8] {
    o.get(at..)
        .unwrap_or(&[])
        .get(..usize::from(octets::double(high, low)))
        .unwrap_or(&[])
}

// `check=`: the CID, the type (0 the provisioned syntax, 1 digits, 2 signalling, 3 fax, 4 SID), and two octets of size before the payload.
fn check(o: &[u8; 600], table: &[u16; 256]) -> Result<(), Refusal> {
    let found = record::table::record_of(table, o[0]);
    payload::check::check_payload(found, o[1], body(o, 4, o[2], o[3]))
}

// `written=`: pcm as the first sub-frame of a frame: whether it is last, the CID, the coding type, and two octets of size before
// the body.
fn frame(o: &[u8; 600], table: &[u16; 256]) -> Result<Writer, Refusal> {
    let mut room = [0u8; 1600];
    writer::primary::write_voice(
        &mut room,
        place::fresh(),
        o[0] == 1,
        table,
        o[1],
        VoiceCount(15),
        o[2],
        body(o, 5, o[3], o[4]),
    )
}

fn fit(letter: u8, o: &[u8; 600]) -> Result<usize, Refusal> {
    match letter {
        b'd' => digits::layout::fit_digits(dialled(o)),
        b's' => seized(o),
        b'f' => fragment(o),
        b'r' => relay(o),
        b'q' => quiet(o),
        b'p' => pcm(o),
        _ => acelp(o),
    }
}

// `dialled=`: digits with this level and current window, on or off, its edge and code; the others off.
fn dialled(o: &[u8; 600]) -> Digits {
    let off = Window {
        on: false,
        edge: 0,
        code: 0,
    };
    Digits {
        sequence: DigitCount(255),
        level: console::hex::signed(o[0]),
        current: Window {
            on: o[1] == 1,
            edge: o[2],
            code: o[3],
        },
        recent: off,
        previous: off,
    }
}

// `seized=`: signalling of this sequence, and thirty times one sample.
fn seized(o: &[u8; 600]) -> Result<usize, Refusal> {
    signalling::layout::fit_signalling(Signalling {
        alarm: false,
        sequence: SignallingCount(o[0]),
        samples: [o[1]; 30],
    })
}

// `fragment=`: a data fragment of this sequence and one octet.
fn fragment(o: &[u8; 600]) -> Result<usize, Refusal> {
    data::fit_data(DataCount(octets::double(o[0], o[1])), b"\xaa")
}

// `relay=`: fax off, of this sequence and stamp.
fn relay(o: &[u8; 600]) -> Result<usize, Refusal> {
    let stamp = Some(octets::double(o[1], o[2]));
    fax::fit_fax(o[0], stamp, Command::Off, b"")
}

// `quiet=`: a silence descriptor under pcm, of this sequence and level.
fn quiet(o: &[u8; 600]) -> Result<usize, Refusal> {
    sid::fit_sid(
        Syntax::Pcm,
        Sid::Noise {
            sequence: VoiceCount(o[0]),
            level: console::hex::signed(o[1]),
        },
    )
}

// `pcm=`: m, the sequence, the coding type, and two octets of size before the body.
fn pcm(o: &[u8; 600]) -> Result<usize, Refusal> {
    let record = Record {
        syntax: Syntax::Pcm,
        m: o[0],
        seq: true,
    };
    voice::fit_voice(record, VoiceCount(o[1]), o[2], body(o, 5, o[3], o[4]))
}

// `acelp=`: the sequence and the coding type, with m=1, seq=0.
fn acelp(o: &[u8; 600]) -> Result<usize, Refusal> {
    let record = Record {
        syntax: Syntax::Acelp,
        m: 1,
        seq: false,
    };
    voice::fit_voice(record, VoiceCount(o[0]), o[1], &[0u8; 10])
}
