// Lists, written into a lent frame one sub-frame at a time.
use crate::contents::Seizure;
use crate::list::{Given, List};
use crate::{body, contents};
use payload::layout::Kind;
use place::Writer;
use refusal::Refusal;
use signalling::layout::Signalling;

fn write_speech(
    frame: &mut [u8],
    writer: Writer,
    table: &[u16; 256],
    given: Given,
) -> Result<Writer, Refusal> {
    let rec = crate::list::record_on(table, given.cid);
    let speech = contents::draw_speech(rec, given.seed);
    let room = body::filled(speech.body);
    writer::primary::write_voice(
        frame,
        writer,
        given.last,
        table,
        given.cid,
        speech.sequence,
        speech.coding,
        room.get(..speech.body.len).unwrap_or(&[]),
    )
}

fn write_fragment(
    frame: &mut [u8],
    writer: Writer,
    table: &[u16; 256],
    given: Given,
) -> Result<Writer, Refusal> {
    let fragment = contents::draw_fragment(given.len, given.seed);
    let room = body::filled(fragment.body);
    writer::primary::write_data(
        frame,
        writer,
        given.last,
        table,
        given.cid,
        fragment.begins,
        fragment.ends,
        fragment.sequence,
        room.get(..fragment.body.len).unwrap_or(&[]),
    )
}

fn write_relay(
    frame: &mut [u8],
    writer: Writer,
    table: &[u16; 256],
    given: Given,
) -> Result<Writer, Refusal> {
    let relay = contents::draw_relay(given.seed);
    let room = body::filled(relay.body);
    writer::signalled::write_fax(
        frame,
        writer,
        given.last,
        table,
        given.cid,
        relay.sequence,
        relay.stamp,
        relay.command,
        room.get(..relay.body.len).unwrap_or(&[]),
    )
}

fn write_digits(
    frame: &mut [u8],
    writer: Writer,
    table: &[u16; 256],
    given: Given,
) -> Result<Writer, Refusal> {
    let digits = contents::draw_digits(given.seed);
    writer::signalled::write_digits(frame, writer, given.last, table, given.cid, digits)
}

// The content of a seizure, its samples filled in.
fn signalling_of(seizure: Seizure) -> Signalling {
    let mut samples = [0u8; 30];
    body::fill(&mut samples, seizure.samples);
    Signalling {
        alarm: seizure.alarm,
        sequence: seizure.sequence,
        samples,
    }
}

fn write_seizure(
    frame: &mut [u8],
    writer: Writer,
    table: &[u16; 256],
    given: Given,
) -> Result<Writer, Refusal> {
    let signalling = signalling_of(contents::draw_seizure(given.seed));
    writer::signalled::write_signalling(frame, writer, given.last, table, given.cid, signalling)
}

fn write_silence(
    frame: &mut [u8],
    writer: Writer,
    table: &[u16; 256],
    given: Given,
) -> Result<Writer, Refusal> {
    let rec = crate::list::record_on(table, given.cid);
    let sid = contents::draw_silence(rec.syntax, given.seed);
    writer::signalled::write_sid(frame, writer, given.last, table, given.cid, sid)
}

// Digits, signalling and silence.
fn write_short(
    frame: &mut [u8],
    writer: Writer,
    table: &[u16; 256],
    given: Given,
) -> Result<Writer, Refusal> {
    match given.kind {
        Kind::ADigits => write_digits(frame, writer, table, given),
        Kind::ASignalling => write_seizure(frame, writer, table, given),
        _ => write_silence(frame, writer, table, given),
    }
}

fn write(
    frame: &mut [u8],
    writer: Writer,
    table: &[u16; 256],
    given: Given,
) -> Result<Writer, Refusal> {
    match given.kind {
        Kind::AVoice => write_speech(frame, writer, table, given),
        Kind::AData => write_fragment(frame, writer, table, given),
        Kind::AFax => write_relay(frame, writer, table, given),
        _ => write_short(frame, writer, table, given),
    }
}

// Writes a list, and tells the octets of its frame.
pub fn write_list(frame: &mut [u8], table: &[u16; 256], list: List) -> usize {
    let mut writer = place::fresh();
    let mut seed = list.seed;
    for i in 0..list.most {
        let given = crate::list::given_at(table, list.shape, list.most - i, writer.at, seed);
        // A refused sub-frame leaves the writer where it was: the frame then does not read back.
        writer = write(frame, writer, table, given).unwrap_or(writer);
        if given.last {
            break;
        }
        seed = crate::draws::next_seed(seed);
    }
    writer.at
}
