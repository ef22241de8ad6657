// Frames checked, opened and read, and handed to the voice card.
ghost use Rattle.std.specs.Prelude.{◌≡◌, ◌≤◌, length};
ghost use Rattle.header.specs.Header.{end_of};
ghost use Rattle.frame.specs.Opening.{opening};

use crate::fold::{flag, fold, level, octet};
use crate::items::Works;
use fax::Command;
use header::SubFrame;
use payload::layout::Layout;
use record::syntax::Record;
use refusal::Refusal;
use sid::Sid;

const CARD: u8 = 5;

// The frame check.
fn check(acc: u64, frame: &[u8]) -> u64 {
    match frame::check(frame) {
        Ok(_) => octet(acc, refusal::SOUND),
        Err(refused) => octet(acc, refused.refusal.number()),
    }
}

// What the voice card is handed: the source, the octets, the first of them.
fn hand(acc: u64, frame: &[u8], silence: &[u8], table: &[u16; 256]) -> u64 {
    let mut source: u8 = 0;
    let octets = card::handing::hand(frame, silence, table, CARD, &mut source);
    let said = fold(octet(acc, source), octets.len() as u64);
    octet(said, octets::octet(octets, 0))
}

// A frame checked, then each header and payload read.
fn read(acc: u64, frame: &[u8], table: &[u16; 256]) -> u64 {
    match frame::check(frame) {
        Ok(checked) => read_subs(acc, frame, table, checked.count),
        Err(refused) => fold(octet(acc, refused.refusal.number()), refused.at as u64),
    }
}

// The sub-frames of a frame that opens, header by header.
fn read_subs(acc: u64, frame: &[u8], table: &[u16; 256], count: usize) -> u64
    requires { count ≡ length (opening frame.now).subs }
{
    let mut folded = acc;
    let mut at: usize = 0;
    for _ in 0..count {
        let sub = header::sub_at(frame, at);
        folded = read_sub(folded, frame, table, sub);
        at = sub.start + sub.len;
    }
    folded
}

fn read_sub(acc: u64, frame: &[u8], table: &[u16; 256], sub: SubFrame) -> u64
    requires { end_of sub ≤ length frame.now }
{
    let at = octet(octet(acc, sub.cid), sub.ptype);
    let found = record::table::record_of(table, sub.cid);
    let payload = &frame[sub.start..sub.start + sub.len];
    match read_payload(at, found, sub.ptype, payload) {
        Ok(folded) => folded,
        Err(refusal) => octet(at, refusal.number()),
    }
}

fn read_payload(
    acc: u64,
    found: Option<Record>,
    ptype: u8,
    payload: &[u8],
) -> Result<u64, Refusal> {
    let folded = match payload::layout::layout_of(found, ptype)? {
        Layout::OfVoice(rec) => {
            let voice = voice::read_voice(rec, payload)?;
            fold(
                octet(octet(acc, voice.sequence.0), voice.coding),
                voice.front as u64,
            )
        }
        Layout::OfDigits => crate::steps::digits(acc, digits::layout::read_digits(payload)?),
        Layout::OfSignalling => {
            crate::steps::signalling(acc, signalling::layout::read_signalling(payload)?)
        }
        Layout::OfFax => {
            let fax = fax::read_fax(payload)?;
            let stamped = fold(octet(acc, fax.sequence), stamp_number(fax.stamp));
            fold(fold(stamped, command_number(fax.command)), fax.front as u64)
        }
        Layout::OfSid(syntax) => silence(acc, sid::read_sid(syntax, payload)?),
        Layout::OfData => {
            let data = data::read_data(payload)?;
            fold(
                fold(acc, flag(data.begins) * 2 + flag(data.ends)),
                u64::from(data.sequence.0),
            )
        }
    };
    Ok(folded)
}

fn stamp_number(stamp: Option<u16>) -> u64 {
    match stamp {
        None => 65536,
        Some(time) => u64::from(time),
    }
}

fn command_number(command: Command) -> u64 {
    match command {
        Command::Off => 0,
        Command::On {
            hdlc,
            modulation,
            frequency,
        } => 1 + flag(hdlc) * 8 + u64::from(modulation) * 16 + u64::from(frequency) * 256,
        Command::Page => 2,
        Command::EndOfFrame => 3,
        Command::Abort => 4,
    }
}

fn silence(acc: u64, sid: Sid) -> u64 {
    match sid {
        Sid::Noise {
            sequence,
            level: noise,
        } => level(octet(acc, sequence.0), noise),
        Sid::Plain => fold(acc, 200),
    }
}

// The work of a row on each item, by its letter: the check; the item opened and read; what the card is handed of it.
pub fn work_of(row: u8, items: &mut [u8], works: Works, table: &[u16; 256]) -> u64 {
    let silence = [85u8; 20];
    match row {
        b'c' => crate::items::each_changed(items, works, None, |acc, frame| check(acc, frame)),
        b'r' => crate::items::each_changed(items, works, None, |acc, frame| {
            read(acc, frame, table)
        }),
        _ => crate::items::each_changed(items, works, None, |acc, frame| {
            hand(acc, frame, &silence, table)
        }),
    }
}
