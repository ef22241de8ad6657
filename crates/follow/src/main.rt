// The program `follow` (docs/FOLLOW.md): its argument is a sub-channel; a recording from standard input, what the sub-channel's trunk
// does with it to standard output. It reads, has the crate `following` follow, and prints, in fixed memory. Where a write fails it
// says so and stops.
#![tactic(auto)]

use recording::stream::{Begun, MOST_KEPT, Walked};
use std::env::{Env, FillError};
use std::io::Read;
use streaming::all::{ROOM, Tells};
use trunk::Trunk;

// What follows: the line that is kept between pieces, the table, the sub-channel and its trunk.
#[derive(Drop)]
struct Follower<'a> {
    kept: [u8; MOST_KEPT],
    table: &'a [u16; 256],
    cid: u8,
    trunk: Trunk,
}

impl<'a> Tells for Follower<'a> {
    fn piece(&mut self, piece: &[u8], begun: Begun, out: &mut [u8; ROOM]) -> Walked {
        following::stream::follow_piece(
            piece,
            begun,
            &mut self.kept,
            self.table,
            self.cid,
            &mut self.trunk,
            out,
        )
    }

    fn last(&mut self, begun: Begun, out: &mut [u8; ROOM]) -> usize {
        following::stream::follow_last(begun, &self.kept, self.table, self.cid, self.trunk, out)
    }
}

// Follows a recording for a sub-channel.
fn follow(rt: &(impl Print + Eprint), reader: &mut impl Read, cid: u8) {
    let mut input = [0u8; 65536];
    let mut table = [0u16; 256];
    let start = streaming::input::begin(rt, reader, b"follow", &mut input, &mut table);
    if start.text.is_ok() {
        let mut follower = Follower {
            kept: [0u8; MOST_KEPT],
            table: &table,
            cid,
            trunk: Trunk::fresh(),
        };
        streaming::all::tell_all(
            rt,
            reader,
            b"follow",
            &mut input,
            start.behind,
            &mut follower,
        );
    }
}

// Whether the program has no argument at a place.
fn is_last(rt: &impl Env, place: usize) -> bool {
    matches!(rt.arg(place, &mut [0u8; 4]), Err(FillError::NotPresent))
}

// The one argument: a number as the provisioning text has it, at most 255. It is put before LFs, and its size must be that of the
// number: it has more than four octets where it does not fit, and its size is more where it has an LF itself.
fn read_argument(rt: &impl Env) -> Option<u8> {
    if !is_last(rt, 2) {
        return None;
    }
    let mut word = [10u8; 4];
    let n = rt.arg(1, &mut word).ok()?;
    let given = value::number_of(&word)?;
    if given.size != n + 1 {
        return None;
    }
    u8::try_from(given.value).ok()
}

fn main(rt: HostRuntime) {
    match read_argument(&rt) {
        Some(cid) => follow(&rt, &mut rt.stdin(), cid),
        None => {
            let _ = eprintln!(rt;
                "use: follow CID, where CID is the number of a sub-channel, 0 to 255, and the recording is standard input"
            );
        }
    }
}
