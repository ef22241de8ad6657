// Opening a frame (document 01, "Frame and sub-frame" and refusals 1 to 8).
#![tactic(auto)]

ghost use Rattle.std.specs.Prelude.{◌≡◌, ◌-◌, length};
ghost use Rattle.frame.specs.Opening.{most_sub_frames, field_fits, scan, checked, opening, answer};

use header::{NONE, SubFrame};
use refusal::Refusal;

// The largest frame, in octets and in sub-frames (house).
pub const MOST_OCTETS: usize = 1600;

pub const MOST_SUB_FRAMES: usize = 64;

// A sound frame, opened: the end of the field, how many sub-frames it holds, and these, in order.
#[derive(Clone, Copy)]
pub struct Opened {
    pub at: usize,
    pub count: usize,
    pub subs: [SubFrame; 64],
}

// The same without the list of the sub-frames.
#[derive(Clone, Copy)]
pub struct Checked {
    pub at: usize,
    pub count: usize,
}

// What refuses a frame, and the place of the offending sub-frame's first octet (0 for 1 and 2). `count` is how many sub-frames a
// scan passed before that place; a refused frame has none, so of a whole frame it is 0.
#[derive(Clone, Copy)]
pub struct Refused {
    pub refusal: Refusal,
    pub at: usize,
    pub count: usize,
}

// Checks the headers from a place on, behind `before` sub-frames. Where one is refused, `count` is how many stand between.
pub fn scan_from(frame: &[u8], from: usize, before: usize) -> Result<Checked, Refused>
    ensures { result ≡ checked (scan (most_sub_frames - before) frame.now from) }
{
    let room = MOST_SUB_FRAMES.saturating_sub(before);
    let mut at = from;
    for count in 0..room {
        match header::header_at(frame, at) {
            Ok(Some(sub)) => {
                at = sub.start + sub.len;
                if sub.last {
                    return Ok(Checked {
                        at,
                        count: count + 1,
                    });
                }
            }
            Ok(None) => return Ok(Checked { at, count }),
            Err(refusal) => return Err(Refused { refusal, at, count }),
        }
    }
    Err(Refused {
        refusal: Refusal::TooManySubFrames,
        at,
        count: room,
    })
}

// Whether a field has 1 to 1,600 octets, so that neither 1 nor 2 refuses it.
pub fn field_fits(frame: &[u8]) -> bool
    ensures { result ≡ field_fits (length frame.now) }
{
    !frame.is_empty() && frame.len() <= MOST_OCTETS
}

// Checks all headers of a frame, for a caller that wants no list of its sub-frames.
pub fn check(frame: &[u8]) -> Result<Checked, Refused>
    ensures { result ≡ checked (opening frame.now) }
{
    if frame.is_empty() {
        return Err(Refused {
            refusal: Refusal::FieldEmpty,
            at: 0,
            count: 0,
        });
    }
    if !field_fits(frame) {
        return Err(Refused {
            refusal: Refusal::FieldTooLong,
            at: 0,
            count: 0,
        });
    }
    scan_from(frame, 0, 0).map_err(|refused| Refused {
        count: 0,
        ..refused
    })
}

// Checks all headers of a frame, and lists its sub-frames.
pub fn open(frame: &[u8]) -> Result<Opened, Refused>
    ensures { result ≡ answer (opening frame.now) }
{
    let found = check(frame)?;
    let mut subs = [NONE; MOST_SUB_FRAMES];
    let mut at: usize = 0;
    for i in 0..found.count {
        let sub = header::sub_at(frame, at);
        subs[i] = sub;
        at = sub.start + sub.len;
    }
    Ok(Opened {
        at: found.at,
        count: found.count,
        subs,
    })
}
