// The header of a sub-frame, read (document 01, "Frame and sub-frame" and refusals 3 to 7).
#![tactic(auto)]

ghost use Rattle.std.specs.Prelude.{◌≡◌};
ghost use Rattle.header.specs.Header.{cid_of, header_at, sub_at};
ghost use Rattle.header.specs.Private.{unless_reserved};

use refusal::Refusal;

// A sub-frame of a frame: its payload is the len octets of the frame from start on.
#[derive(Clone, Copy, Debug, PartialEq, Eq)]
pub struct SubFrame {
    pub cid: u8,
    pub ptype: u8,
    pub start: usize,
    pub len: usize,
    pub last: bool,
}

// No sub-frame.
pub const NONE: SubFrame = SubFrame {
    cid: 0,
    ptype: 0,
    start: 0,
    len: 0,
    last: false,
};

// The CID: its high bits are in octet 1a.
fn cid_of(octet1: u8, octet1a: u8) -> u8
    ensures { result ≡ cid_of octet1 octet1a }
{
    octet1a / 64 * 64 + octet1 % 64
}

// A sub-frame, unless a reserved CID or a spare bit refuses it.
fn unless_reserved(octet1a: u8, sub: SubFrame) -> Result<SubFrame, Refusal>
    ensures { result ≡ unless_reserved octet1a sub }
{
    if sub.cid < 4 {
        return Err(Refusal::CidReserved);
    }
    if 0 < octet1a / 16 % 4 {
        return Err(Refusal::SpareBitSet);
    }
    Ok(sub)
}

// What the header tells whose first octet stands at `at`: its sub-frame, or a refusal, 3 to 7; nothing, where the frame has no octet
// there.
pub fn header_at(frame: &[u8], at: usize) -> Result<Option<SubFrame>, Refusal>
    ensures { result ≡ header_at frame.now at }
{
    if frame.len() <= at {
        return Ok(None);
    }
    let octet1 = frame[at];
    // Octet 1a, and where octet 1b or the payload begins.
    let mut octet1a: u8 = 0;
    let mut next = at + 1;
    if 127 < octet1 {
        if frame.len() <= next {
            return Err(Refusal::HeaderCut);
        }
        octet1a = frame[next];
        next = at + 2;
    }
    let left = frame.len() - next;
    let cid = cid_of(octet1, octet1a);
    let ptype = octet1a % 16;
    if octet1 / 64 % 2 == 0 {
        let sub = SubFrame {
            cid,
            ptype,
            start: next,
            len: left,
            last: true,
        };
        return Ok(Some(unless_reserved(octet1a, sub)?));
    }
    if left == 0 {
        return Err(Refusal::HeaderCut);
    }
    let len = frame[next] as usize;
    let sub = SubFrame {
        cid,
        ptype,
        start: next + 1,
        len,
        last: false,
    };
    let sub = unless_reserved(octet1a, sub)?;
    let rest = left - 1;
    if len < rest {
        return Ok(Some(sub));
    }
    if rest < len {
        return Err(Refusal::LengthPastField);
    }
    Err(Refusal::LastWithLength)
}

// The sub-frame whose header stands at `at`, of a frame whose headers were checked.
pub fn sub_at(frame: &[u8], at: usize) -> SubFrame
    ensures { result ≡ sub_at frame.now at }
{
    if frame.len() <= at {
        return NONE;
    }
    let octet1 = frame[at];
    let mut octet1a: u8 = 0;
    let mut next = at + 1;
    if 127 < octet1 {
        octet1a = octets::octet(frame, next);
        next = at + 2;
    }
    let cid = cid_of(octet1, octet1a);
    let ptype = octet1a % 16;
    if octet1 / 64 % 2 == 0 {
        return SubFrame {
            cid,
            ptype,
            start: next,
            len: frame.len().saturating_sub(next),
            last: true,
        };
    }
    SubFrame {
        cid,
        ptype,
        start: next + 1,
        len: octets::wide(octets::octet(frame, next)),
        last: false,
    }
}
