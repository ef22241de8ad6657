// Legal lists, drawn from a seed. Writing and reading back draw the same list, each by itself.
use crate::draws;
use payload::layout::Kind;
use record::syntax::{Record, Syntax};
use refusal::Refusal;

const MOST_OCTETS: usize = 1600;

const MOST_SUB_FRAMES: usize = 64;

// A payload over this is last.
const MOST_NOT_LAST: usize = 255;

// A list goes on where its payloads end no later: the longest payload, of 481 octets, still has its place there.
const ROOMY: usize = 1100;

#[derive(Clone, Copy, PartialEq, Eq)]
pub enum Shape {
    // One to twelve sub-frames of every kind.
    Short,
    // 64 sub-frames of digits, signalling and silence.
    Many,
    // Sub-frames of every kind, and a data fragment that fills the frame to 1,600 octets as last.
    Filled,
}

#[derive(Clone, Copy)]
pub struct List {
    pub shape: Shape,
    pub most: usize,
    pub seed: u64,
}

// A sub-frame that is given: `len` is looked at where it is a data fragment.
#[derive(Clone, Copy)]
pub struct Given {
    pub cid: u8,
    pub kind: Kind,
    pub len: usize,
    pub seed: u64,
    pub last: bool,
}

// Of eight lists one is of 64 sub-frames and one of 1,600 octets.
pub fn list_of(number: u64, seed: u64) -> List {
    let mut at = seed;
    let drawn = draws::below(&mut at, 12) as usize;
    let seed = draws::next_seed(seed);
    match number % 8 {
        6 => List {
            shape: Shape::Many,
            most: MOST_SUB_FRAMES,
            seed,
        },
        7 => List {
            shape: Shape::Filled,
            most: MOST_SUB_FRAMES,
            seed,
        },
        _ => List {
            shape: Shape::Short,
            most: drawn + 1,
            seed,
        },
    }
}

fn any_kind(state: &mut u64) -> Kind {
    match draws::below(state, 10) {
        0..=3 => Kind::AVoice,
        4 | 5 => Kind::AFax,
        6 => Kind::AData,
        7 => Kind::ADigits,
        8 => Kind::ASignalling,
        _ => Kind::ASid,
    }
}

fn short_kind(state: &mut u64) -> Kind {
    match draws::below(state, 3) {
        0 => Kind::ADigits,
        1 => Kind::ASignalling,
        _ => Kind::ASid,
    }
}

// The type that a sub-channel has for a kind.
pub fn type_on(table: &[u16; 256], cid: u8, kind: Kind) -> Result<u8, Refusal> {
    payload::layout::type_for(record::table::record_of(table, cid), kind)
}

// The first CID from this one on, round 255, that takes the kind.
fn taking(table: &[u16; 256], from: u8, kind: Kind) -> u8 {
    for i in 0..=255u8 {
        let cid = from.wrapping_add(i);
        if type_on(table, cid, kind).is_ok() {
            return cid;
        }
    }
    from
}

// The record of a sub-channel that is provisioned.
pub fn record_on(table: &[u16; 256], cid: u8) -> Record {
    record::table::record_of(table, cid).unwrap_or(Record {
        syntax: Syntax::Acelp,
        m: 1,
        seq: false,
    })
}

// The payload's octets; of fax, digits, signalling and silence no fewer.
fn size(rec: Record, kind: Kind, len: usize, seed: u64) -> usize {
    match kind {
        Kind::AVoice => {
            let speech = crate::contents::draw_speech(rec, seed);
            speech.body.len.wrapping_add(usize::from(rec.seq))
        }
        Kind::AData => len.wrapping_add(2),
        _ => 75,
    }
}

// Whether a list of so many more ends with a payload of so many octets.
fn ends(left: usize, at: usize, size: usize) -> bool {
    left <= 1 || MOST_NOT_LAST < size || ROOMY.saturating_sub(at) < size
}

// A data fragment from this place to the end of the frame; its header and its own first two octets stand in front.
fn filling(table: &[u16; 256], at: usize, seed: u64) -> Given {
    let mut state = seed;
    let cid = taking(table, draws::octet(&mut state), Kind::AData);
    let front: usize = if cid < 64 { 3 } else { 4 };
    Given {
        cid,
        kind: Kind::AData,
        len: MOST_OCTETS.saturating_sub(at).saturating_sub(front),
        seed: state,
        last: true,
    }
}

fn drawn_at(table: &[u16; 256], kind: Kind, left: usize, at: usize, seed: u64) -> Given {
    let mut state = seed;
    let cid = taking(table, draws::octet(&mut state), kind);
    let len = (draws::number(&mut state) % 300 + 1) as usize;
    let size = size(record_on(table, cid), kind, len, state);
    Given {
        cid,
        kind,
        len,
        seed: state,
        last: ends(left, at, size),
    }
}

// The sub-frame at a place of the frame, the list having `left` more with it.
pub fn given_at(table: &[u16; 256], shape: Shape, left: usize, at: usize, seed: u64) -> Given {
    let mut state = seed;
    let kind = match shape {
        Shape::Many => short_kind(&mut state),
        _ => any_kind(&mut state),
    };
    let given = drawn_at(table, kind, left, at, state);
    if given.last && shape == Shape::Filled {
        return filling(table, at, state);
    }
    given
}
