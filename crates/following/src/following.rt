// A line of a recording as one sub-channel's trunk takes it (docs/FOLLOW.md).
ghost use Rattle.std.specs.Prelude.{◌≡◌, ◌+◌, ◌≤◌, length, IfOk};
ghost use Rattle.header.specs.Header.{end_of};
ghost use Rattle.frame.specs.Opening.{opening};
ghost use Rattle.printing.specs.Room.{Appended};
ghost use Rattle.trunk.specs.Trunk.{number_of};
ghost use Rattle.following.specs.Following.{sub_lines, sub_following, subs_following, frame_following};
ghost use Rattle.following.specs.Private.{Stands, following_of};

use header::SubFrame;
use printing::field::put_field;
use printing::refused::put_refused;
use refusal::Refusal;
use trunk::{Heard, Trunk};

// The room that is asked for a line's text: 64 sub-frames, each of 106 octets for `frame=` to `answer=` and 303 for a fax
// payload, the longest.
pub(crate) const MOST_FOLLOWED: usize = 26176;

// The number of an answer, 0 where nothing is refused.
fn number_of(answer: Result<Heard, Refusal>) -> u8
    ensures { result ≡ number_of answer }
{
    match answer {
        Ok(_) => refusal::SOUND,
        Err(refusal) => refusal.number(),
    }
}

// What the trunk answers of a sub-frame, with the signalling receiver after it.
fn put_lines(
    out: &mut [u8],
    at: usize,
    n: u64,
    sub: SubFrame,
    answer: Result<Heard, Refusal>,
    receiver: seized::Receiver,
) -> usize
    requires { at + 409 ≤ length out.old }
    ensures { Appended out.old at (sub_lines n sub answer receiver) 409 out.new result }
{
    let past_frame = put_field(out, at, b"frame=", n);
    let past_type = put_field(out, past_frame, b"type=", sub.ptype as u64);
    let past_len = put_field(out, past_type, b"len=", sub.len as u64);
    let past_answer = put_field(out, past_len, b"answer=", number_of(answer) as u64);
    crate::heard::put_answer(out, past_answer, answer, receiver)
}

// A sub-frame of the frame. One of another sub-channel prints nothing and reaches no trunk.
fn put_sub(
    out: &mut [u8],
    at: usize,
    n: u64,
    table: &[u16; 256],
    cid: u8,
    frame: &[u8],
    sub: SubFrame,
    trunk: &mut Trunk,
) -> usize
    requires at_in_bounds { at + 409 ≤ length out.old }
    requires sub_in_bounds { end_of sub ≤ length frame.now }
    ensures { Stands out.old at (sub_following n table.now cid frame.now sub trunk.old) 409 out.new result trunk.new }
{
    if sub.cid != cid {
        return at;
    }
    let end = sub.start + sub.len;
    let found = record::table::record_of(table, cid);
    let answer = trunk.take(found, sub.ptype, &frame[sub.start..end]);
    put_lines(out, at, n, sub, answer, trunk.signalling)
}

// The sub-frames of a frame that opens, header by header.
fn put_subs(
    out: &mut [u8],
    at: usize,
    n: u64,
    table: &[u16; 256],
    cid: u8,
    frame: &[u8],
    count: usize,
    trunk: &mut Trunk,
) -> usize
    requires at_in_bounds { at + 26176 ≤ length out.old }
    requires frame_len_bound { length frame.now ≤ 1600 }
    requires count_value { count ≡ length (opening frame.now).subs }
    ensures { Stands out.old at (subs_following n table.now cid frame.now (opening frame.now).subs trunk.old) 26176 out.new result trunk.new }
{
    let mut next = at;
    let mut place: usize = 0;
    for _ in 0..count {
        let sub = header::sub_at(frame, place);
        next = put_sub(out, next, n, table, cid, frame, sub, trunk);
        place = sub.start + sub.len;
    }
    next
}

// A frame, as the frame number n.
fn put_frame(
    out: &mut [u8],
    at: usize,
    n: u64,
    table: &[u16; 256],
    cid: u8,
    frame: &[u8],
    trunk: &mut Trunk,
) -> usize
    requires at_in_bounds { at + 26176 ≤ length out.old }
    requires frame_len_bound { length frame.now ≤ 1600 }
    ensures { Stands out.old at (frame_following n table.now cid frame.now trunk.old) 26176 out.new result trunk.new }
{
    match frame::check(frame) {
        Ok(checked) => put_subs(out, at, n, table, cid, frame, checked.count, trunk),
        Err(refused) => put_refused(out, at, n, refused.refusal.number(), refused.at),
    }
}

// What a line holds, whose octets stand at the start of `frame`, as the frame number n.
pub(crate) fn put_read(
    out: &mut [u8],
    at: usize,
    n: u64,
    table: &[u16; 256],
    cid: u8,
    read: Result<usize, Refusal>,
    frame: &[u8],
    trunk: &mut Trunk,
) -> usize
    requires at_in_bounds { at + 26176 ≤ length out.old }
    requires octets_in_bounds { IfOk read (λ size. size ≤ length frame.now) }
    requires frame_len_bound { length frame.now ≤ 1600 }
    ensures { Stands out.old at (following_of n table.now cid read frame.now trunk.old) 26176 out.new result trunk.new }
{
    match read {
        Ok(size) => put_frame(out, at, n, table, cid, &frame[..size], trunk),
        Err(refusal) => put_refused(out, at, n, refusal.number(), 0),
    }
}
