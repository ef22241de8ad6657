// The kinds of line, their keys and their octets (docs/UNIT.md, "Input").
ghost use Rattle.std.specs.Prelude.{IfSome};
ghost use Rattle.console.specs.Counts.{IsPrefixLen};

#[derive(Clone, Copy)]
pub enum Content {
    Voice,
    Digits,
    Signalling,
    Fax,
    Sid,
    Data,
}

#[derive(Clone, Copy)]
pub enum Kind {
    Frame,
    Silence,
    Card,
    Room,
    Shown,
    Written(Content),
}

// The kind that a key names.
fn kind_of(key: &[u8]) -> Option<Kind> {
    match key {
        b"frame=" => Some(Kind::Frame),
        b"silence=" => Some(Kind::Silence),
        b"card=" => Some(Kind::Card),
        b"room=" => Some(Kind::Room),
        b"shown=" => Some(Kind::Shown),
        b"voice=" => Some(Kind::Written(Content::Voice)),
        b"digits=" => Some(Kind::Written(Content::Digits)),
        b"signalling=" => Some(Kind::Written(Content::Signalling)),
        b"fax=" => Some(Kind::Written(Content::Fax)),
        b"sid=" => Some(Kind::Written(Content::Sid)),
        b"data=" => Some(Kind::Written(Content::Data)),
        _ => None,
    }
}

// A number of two octets, the high one first.
pub fn pair(octets: &[u8], at: usize) -> u16 {
    if at < octets.len() {
        return octets::double(octets[at], octets::octet(octets, at + 1));
    }
    0
}

// The most octets of a frame, a block, a room or a body.
const MOST: usize = 1700;

// Whether there are at least so many octets and at most MOST behind them.
fn body_fits(octets: &[u8], front: usize) -> bool {
    front <= octets.len() && octets.len() - front <= MOST
}

fn truth(octets: &[u8], at: usize) -> bool {
    octets::octet(octets, at) <= 1
}

// Whether a line of the kind has these octets: as many as it takes, and each in its range.
fn fits(kind: Kind, octets: &[u8]) -> bool {
    match kind {
        Kind::Frame | Kind::Silence => octets.len() <= MOST,
        Kind::Card => octets.len() == 1,
        Kind::Room => octets.len() == 2 && pair(octets, 0) <= 1700,
        Kind::Shown => octets.is_empty(),
        Kind::Written(content) => content_fits(content, octets),
    }
}

fn content_fits(content: Content, octets: &[u8]) -> bool {
    if !truth(octets, 0) {
        return false;
    }
    match content {
        Content::Voice => body_fits(octets, 4),
        Content::Digits => {
            octets.len() == 13 && truth(octets, 4) && truth(octets, 7) && truth(octets, 10)
        }
        Content::Signalling => octets.len() == 34 && truth(octets, 2),
        Content::Fax => {
            body_fits(octets, 11)
                && truth(octets, 3)
                && octets::octet(octets, 6) <= 4
                && truth(octets, 7)
        }
        Content::Sid => octets.len() == 5 && truth(octets, 2),
        Content::Data => body_fits(octets, 6) && truth(octets, 2) && truth(octets, 3),
    }
}

// What a line is: its kind, and how many octets it states.
#[derive(Clone, Copy)]
pub struct Stated {
    pub kind: Kind,
    pub size: usize,
}

// The kind and the octets of a line that has such octets as its kind takes; none of any other, which is malformed.
pub fn known(text: &[u8], room: &mut [u8]) -> Option<Stated>
    ensures { IfSome result (λ s. IsPrefixLen s.size room.new) }
{
    let at = console::key::size(text);
    let kind = kind_of(&text[..at])?;
    let size = console::hex::decode(text, at, room)?;
    if !fits(kind, &room[..size]) {
        return None;
    }
    Some(Stated { kind, size })
}
