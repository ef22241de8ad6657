// A mixed frame written, from the octets of an item.
use crate::fold::{fold, octet};
use crate::items::{Works, pair, part};
use counts::{DataCount, DigitCount, SignallingCount, VoiceCount};
use digits::layout::{Digits, Window};
use fax::Command;
use place::Writer;
use refusal::Refusal;
use sid::Sid;
use signalling::layout::Signalling;

// The place of the first octet of the material that passes through.
const BODY: usize = 64;

// Every octet of the room.
fn octets(acc: u64, room: &[u8]) -> u64 {
    let mut folded = acc;
    for x in room {
        folded = octet(folded, *x);
    }
    folded
}

// The last octet of a frame that ends at a place.
fn ended(acc: u64, frame: &[u8], at: usize) -> u64 {
    if at == 0 {
        return acc;
    }
    octet(acc, octets::octet(frame, at - 1))
}

// A frame of six sub-frames written into as much of the room as the item says, to the first refusal; the place after each is folded.
fn write(acc: u64, room: &mut [u8], m: &[u8], table: &[u16; 256]) -> u64 {
    if m.len() != 325 {
        return acc;
    }
    let size = crate::items::size(m, 0).min(room.len());
    let mut folded = acc;
    match write_six(&mut folded, &mut room[..size], m, table) {
        Ok(writer) => ended(folded, &room[..size], writer.at),
        Err(refusal) => octet(folded, refusal.number()),
    }
}

fn write_six(
    acc: &mut u64,
    frame: &mut [u8],
    m: &[u8],
    table: &[u16; 256],
) -> Result<Writer, Refusal> {
    let spoken = write_voice(frame, place::fresh(), m, table)?;
    *acc = placed(*acc, spoken);
    let cid = octets::octet(m, 6);
    let dialled = writer::signalled::write_digits(frame, spoken, false, table, cid, digits_in(m))?;
    *acc = placed(*acc, dialled);
    let cid = octets::octet(m, 18);
    let seized = writer::signalled::write_signalling(
        frame,
        dialled,
        false,
        table,
        cid,
        signalling_in(m),
    )?;
    *acc = placed(*acc, seized);
    let faxed = write_fax(frame, seized, m, table)?;
    *acc = placed(*acc, faxed);
    let sid = sid_in(octets::octet(m, 3), octets::octet(m, 63));
    let silent = writer::signalled::write_sid(
        frame,
        faxed,
        false,
        table,
        octets::octet(m, 62),
        sid,
    )?;
    *acc = placed(*acc, silent);
    let last = write_data(frame, silent, m, table)?;
    *acc = placed(*acc, last);
    Ok(last)
}

fn write_voice(
    frame: &mut [u8],
    writer: Writer,
    m: &[u8],
    table: &[u16; 256],
) -> Result<Writer, Refusal> {
    writer::primary::write_voice(
        frame,
        writer,
        false,
        table,
        octets::octet(m, 2),
        VoiceCount(octets::octet(m, 3)),
        octets::octet(m, 4),
        body(m, 5),
    )
}

// The place after a sub-frame.
fn placed(acc: u64, writer: Writer) -> u64 {
    fold(acc, writer.at as u64)
}

// As many octets of the material that passes through as the octet at a place says.
fn body(m: &[u8], at: usize) -> &[u8] {
    part(m, BODY, octets::wide(octets::octet(m, at)))
}

fn odd(m: &[u8], at: usize) -> bool {
    octets::octet(m, at) % 2 == 1
}

fn digits_in(m: &[u8]) -> Digits {
    Digits {
        sequence: DigitCount(octets::octet(m, 7)),
        level: crate::steps::level_in(octets::octet(m, 8)),
        current: window(
            octets::octet(m, 9),
            octets::octet(m, 10),
            octets::octet(m, 11),
        ),
        recent: window(
            octets::octet(m, 12),
            octets::octet(m, 13),
            octets::octet(m, 14),
        ),
        previous: window(
            octets::octet(m, 15),
            octets::octet(m, 16),
            octets::octet(m, 17),
        ),
    }
}

fn window(on: u8, edge: u8, code: u8) -> Window {
    Window {
        on: on % 2 == 1,
        edge,
        code,
    }
}

fn signalling_in(m: &[u8]) -> Signalling {
    let mut samples = [0u8; 30];
    let _ = octets::put_octets(&mut samples, 0, part(m, 21, 30));
    Signalling {
        alarm: odd(m, 19),
        sequence: SignallingCount(octets::octet(m, 20)),
        samples,
    }
}

fn write_fax(
    frame: &mut [u8],
    writer: Writer,
    m: &[u8],
    table: &[u16; 256],
) -> Result<Writer, Refusal> {
    writer::signalled::write_fax(
        frame,
        writer,
        false,
        table,
        octets::octet(m, 51),
        octets::octet(m, 52),
        stamp(m),
        command(m),
        body(m, 61),
    )
}

fn stamp(m: &[u8]) -> Option<u16> {
    odd(m, 53).then_some(pair(m, 54))
}

fn command(m: &[u8]) -> Command {
    match octets::octet(m, 56) % 5 {
        0 => Command::Off,
        1 => Command::On {
            hdlc: odd(m, 57),
            modulation: octets::octet(m, 58),
            frequency: pair(m, 59),
        },
        2 => Command::Page,
        3 => Command::EndOfFrame,
        _ => Command::Abort,
    }
}

fn sid_in(sequence: u8, level: u8) -> Sid {
    if level == 1 {
        return Sid::Plain;
    }
    Sid::Noise {
        sequence: VoiceCount(sequence),
        level: crate::steps::level_in(level),
    }
}

fn write_data(
    frame: &mut [u8],
    writer: Writer,
    m: &[u8],
    table: &[u16; 256],
) -> Result<Writer, Refusal> {
    writer::primary::write_data(
        frame,
        writer,
        true,
        table,
        octets::octet(m, 320),
        odd(m, 321),
        octets::octet(m, 321) / 2 % 2 == 1,
        DataCount(pair(m, 322)),
        body(m, 324),
    )
}

// A frame written from each item; with `all`, the whole room is folded too.
pub fn write_each(
    items: &mut [u8],
    works: Works,
    table: &[u16; 256],
    room: &mut [u8],
    all: bool,
) -> u64 {
    crate::items::each_changed(items, works, Some(BODY), |acc, m| {
        let folded = write(acc, room, m, table);
        if all { octets(folded, room) } else { folded }
    })
}
