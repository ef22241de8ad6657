// The frame reader (document 01, "A frame reader then holds the lent frame and its place in it, and yields sub-frames in
// order, payloads as parts of the frame"). The functions over `Reader` are thin; the work is done by `start`,
// `step_from` and `part`, on the slice and plain values.
#![tactic(auto)]

ghost use Rattle.std.specs.Prelude.{◌≡◌};
ghost use Rattle.reader.specs.Reading.{start_of, next_of, opened, found, stepped, payload_of, payload_at, nth_of};

use header::SubFrame;

// What a step yields, if there is a sub-frame left, and the place in the frame from which to go on.
#[derive(Clone, Copy)]
pub struct Place {
    pub at: usize,
    pub found: Option<SubFrame>,
}

// A frame reader: the lent frame, and its place in it. Other crates get one from `open` alone.
#[derive(Clone, Copy)]
pub struct Reader<'a> {
    frame: &'a [u8],
    at: usize,
}

// Where a reader of a frame begins: before the first sub-frame of a sound frame, at the end of any other.
#[tactic(auto, unfolding(crate::specs::Reading::start_of))]
fn start(frame: &[u8]) -> usize
    ensures { result ≡ start_of frame.now }
{
    if frame::check(frame).is_ok() {
        0
    } else {
        frame.len()
    }
}

// One step for a caller that holds no reader: the sub-frame that begins at a place of a frame, and where it ends. It looks at
// this one header; where that is refused there is no sub-frame, and the next place is the end.
#[tactic(auto, unfolding(crate::specs::Reading::next_of))]
pub fn step_from(frame: &[u8], at: usize) -> Place
    ensures { result ≡ next_of frame.now at }
{
    match header::header_at(frame, at) {
        Ok(Some(sub)) => Place {
            at: sub.start + sub.len,
            found: Some(sub),
        },
        Ok(None) => Place { at, found: None },
        Err(_) => Place {
            at: frame.len(),
            found: None,
        },
    }
}

// The payload of a sub-frame, a part of the frame, for a caller that holds no reader: an empty part where the frame has fewer
// octets.
pub fn part<'a>(frame: &'a [u8], sub: SubFrame) -> &'a [u8]
    ensures { (result.now ≡ payload_of frame.now sub) × (result.ref_ptr ≡ payload_at frame.now frame.entry.ref_ptr sub) }
{
    let start = sub.start;
    let len = sub.len;
    if frame.len() < start {
        return &frame[0..0];
    }
    if frame.len() - start < len {
        return &frame[0..0];
    }
    let end = start + len;
    &frame[start..end]
}

// Opens a frame. A reader of a refused frame stands at its end, and yields nothing: the refusal and its place are
// the answer of `frame::check`.
pub fn open<'a>(frame: &'a [u8]) -> Reader<'a>
    ensures { result ≡ opened frame.entry }
{
    let at = start(frame);
    Reader { frame, at }
}

// Yields the next sub-frame, and moves the reader past it, or says that there is none.
pub fn step<'s, 'a>(reader: &'s mut Reader<'a>) -> Option<SubFrame>
    ensures { (result ≡ found reader.old) × (reader.new ≡ stepped reader.old) }
{
    let next = step_from(reader.frame, reader.at);
    reader.at = next.at;
    next.found
}

// The payload of a sub-frame that a step yielded, a part of the frame.
pub fn payload<'a>(reader: Reader<'a>, sub: SubFrame) -> &'a [u8]
    ensures { (result.now ≡ payload_of reader.entry.frame.now sub) × (result.ref_ptr ≡ payload_at reader.entry.frame.now reader.entry.frame.ref_ptr sub) }
{
    part(reader.frame, sub)
}

// The sub-frame of a frame that a reader yields after n others: there is none where the frame has n or fewer, or is refused.
pub fn nth(frame: &[u8], n: u8) -> Option<SubFrame>
    ensures { result ≡ nth_of frame.now n }
{
    let mut reader = open(frame);
    let mut found = step(&mut reader);
    for _ in 0..n {
        found = step(&mut reader);
    }
    found
}
