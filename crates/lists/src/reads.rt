// A written frame, opened, read and compared with the list that was given.
use crate::compare;
use crate::list::{Given, List};
use header::SubFrame;
use payload::layout::Kind;
use record::syntax::Record;

// Whether a sub-frame of the frame tells what was given.
fn same(frame: &[u8], table: &[u16; 256], sub: SubFrame, given: Given) -> bool {
    if sub.cid != given.cid || sub.last != given.last {
        return false;
    }
    crate::list::type_on(table, sub.cid, given.kind) == Ok(sub.ptype)
        && same_content(
            reader::part(frame, sub),
            crate::list::record_on(table, sub.cid),
            given,
        )
}

// Whether a payload of the kind that was given tells the content.
fn same_content(payload: &[u8], rec: Record, given: Given) -> bool {
    match given.kind {
        Kind::AVoice => compare::same_speech(payload, rec, given.seed),
        Kind::ADigits => compare::same_digits(payload, given.seed),
        Kind::ASignalling => compare::same_seizure(payload, given.seed),
        Kind::AFax => compare::same_relay(payload, given.seed),
        Kind::ASid => compare::same_silence(payload, rec, given.seed),
        Kind::AData => compare::same_fragment(payload, given.len, given.seed),
    }
}

// The sub-frame with this number, by a frame reader; past the last one of CID 0, which is none.
fn sub_at(frame: &[u8], at: usize) -> SubFrame {
    reader::nth(frame, (at % 256) as u8).unwrap_or(header::NONE)
}

// The first sub-frame, from 1, that is not the one given.
pub fn first_differing(frame: &[u8], table: &[u16; 256], list: List) -> Option<usize> {
    let mut seed = list.seed;
    let mut at: usize = 0;
    for i in 0..list.most {
        let sub = sub_at(frame, i);
        let given = crate::list::given_at(table, list.shape, list.most - i, at, seed);
        if !same(frame, table, sub, given) {
            return Some(i + 1);
        }
        if given.last {
            return None;
        }
        seed = crate::draws::next_seed(seed);
        at = sub.start.wrapping_add(sub.len);
    }
    Some(list.most)
}
