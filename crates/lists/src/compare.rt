// A payload, read and compared with the content that was given: only a level above zero and the code of an off window may come
// back different, as 0 (demand 2).
use crate::contents::Seizure;
use crate::{body, contents};
use digits::layout::{Digits, Window};
use record::syntax::Record;
use signalling::layout::Signalling;

pub fn same_speech(payload: &[u8], rec: Record, seed: u64) -> bool {
    let due = contents::draw_speech(rec, seed);
    match voice::read_voice(rec, payload) {
        Ok(read) => {
            read.sequence == due.sequence
                && read.coding == due.coding
                && body::same(payload.get(read.front..).unwrap_or(&[]), due.body)
        }
        Err(_) => false,
    }
}

pub fn same_fragment(payload: &[u8], len: usize, seed: u64) -> bool {
    let due = contents::draw_fragment(len, seed);
    match data::read_data(payload) {
        Ok(read) => {
            read.begins == due.begins
                && read.ends == due.ends
                && read.sequence == due.sequence
                && body::same(payload.get(2..).unwrap_or(&[]), due.body)
        }
        Err(_) => false,
    }
}

pub fn same_relay(payload: &[u8], seed: u64) -> bool {
    let due = contents::draw_relay(seed);
    match fax::read_fax(payload) {
        Ok(read) => {
            read.sequence == due.sequence
                && read.stamp == due.stamp
                && read.command == due.command
                && body::same(payload.get(read.front..).unwrap_or(&[]), due.body)
        }
        Err(_) => false,
    }
}

// A window as it comes back: the code of an off window is 0.
fn back(given: Window) -> Window {
    Window {
        code: if given.on { given.code } else { 0 },
        ..given
    }
}

pub fn same_digits(payload: &[u8], seed: u64) -> bool {
    let due = contents::draw_digits(seed);
    digits::layout::read_digits(payload)
        == Ok(Digits {
            sequence: due.sequence,
            // As it comes back: above zero it is 0.
            level: due.level.min(0),
            current: back(due.current),
            recent: back(due.recent),
            previous: back(due.previous),
        })
}

fn same_signalling(read: Signalling, due: Seizure) -> bool {
    read.alarm == due.alarm
        && read.sequence == due.sequence
        && body::same(&read.samples, due.samples)
}

pub fn same_seizure(payload: &[u8], seed: u64) -> bool {
    match signalling::layout::read_signalling(payload) {
        Ok(read) => same_signalling(read, contents::draw_seizure(seed)),
        Err(_) => false,
    }
}

pub fn same_silence(payload: &[u8], rec: Record, seed: u64) -> bool {
    sid::read_sid(rec.syntax, payload) == Ok(contents::draw_silence(rec.syntax, seed))
}
