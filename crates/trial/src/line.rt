// The kinds of line, their keys and their octets (docs/TRIAL.md, "Input").
ghost use Rattle.std.specs.Prelude.{IfSome};
ghost use Rattle.console.specs.Counts.{IsPrefixLen};

use refusal::Refusal;

#[derive(Clone, Copy, PartialEq, Eq)]
pub enum Kind {
    Digit,
    Start,
    Samples,
    Digits,
    Signalling,
    Voice,
    Fresh,
}

// The kind that a key names.
fn kind_of(key: &[u8]) -> Option<Kind> {
    match key {
        b"digit=" => Some(Kind::Digit),
        b"start=" => Some(Kind::Start),
        b"samples=" => Some(Kind::Samples),
        b"digits=" => Some(Kind::Digits),
        b"signalling=" => Some(Kind::Signalling),
        b"voice=" => Some(Kind::Voice),
        b"fresh=" => Some(Kind::Fresh),
        _ => None,
    }
}

// Whether a line of the kind has as many octets as it takes.
fn size_fits(kind: Kind, count: usize) -> bool {
    match kind {
        Kind::Digit => count == 5,
        Kind::Samples => count == 12,
        Kind::Digits | Kind::Signalling => 1 <= count,
        Kind::Start | Kind::Voice | Kind::Fresh => count == 1,
    }
}

// Whether *who*, and a type or an alarm, are in their ranges.
fn in_range(kind: Kind, octets: &[u8]) -> bool {
    let who = octets::octet(octets, 0) <= 3;
    let second = octets::octet(octets, 1) <= 1;
    match kind {
        Kind::Start => true,
        Kind::Digit | Kind::Samples => who && second,
        _ => who,
    }
}

// Whether a line of the kind has these octets.
fn fits(kind: Kind, octets: &[u8]) -> bool {
    size_fits(kind, octets.len()) && in_range(kind, octets)
}

// What a line is: its kind, and how many octets it states.
#[derive(Clone, Copy)]
pub struct Stated {
    pub kind: Kind,
    pub size: usize,
}

// The kind and the octets of a line that has such octets as its kind takes; none of any other, which is malformed.
pub fn known(text: &[u8], room: &mut [u8]) -> Option<Stated>
    ensures { IfSome result (λ s. IsPrefixLen s.size room.new) }
{
    let at = console::key::size(text);
    let kind = kind_of(&text[..at])?;
    let size = console::hex::decode(text, at, room)?;
    if !fits(kind, &room[..size]) {
        return None;
    }
    Some(Stated { kind, size })
}

// Prints the number of a refusal.
pub fn refused(rt: &impl Print, refusal: Refusal) {
    console::print::number(rt, b"refused=", u64::from(refusal.number()));
}

// What is done to the receivers that *who* names: 1 the first, 2 the second, 3 both.
pub fn each<R, F: FnMut(u64, &mut R)>(who: u8, first: &mut R, second: &mut R, mut done: F)
    requires { (d : _) (number : _) (receiver : _) → F.pre d number receiver }
{
    if who % 2 == 1 {
        done(1, first);
    }
    if 1 < who {
        done(2, second);
    }
}
