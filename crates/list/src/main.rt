// The listing program (document 01, "Listing program"): a recording from standard input, its listing to standard output. It reads,
// has the crate `listing` list, and prints, in fixed memory. Where a write fails it says so and stops.
#![tactic(auto)]

use recording::stream::{Begun, MOST_KEPT, Walked};
use streaming::all::{ROOM, Tells};

// What lists: the line that is kept between pieces, and the table.
#[derive(Drop)]
struct Lister<'a> {
    kept: [u8; MOST_KEPT],
    table: &'a [u16; 256],
}

impl<'a> Tells for Lister<'a> {
    fn piece(&mut self, piece: &[u8], begun: Begun, out: &mut [u8; ROOM]) -> Walked {
        listing::stream::list_piece(piece, begun, &mut self.kept, self.table, out)
    }

    fn last(&mut self, begun: Begun, out: &mut [u8; ROOM]) -> usize {
        listing::stream::list_last(begun, &self.kept, self.table, out)
    }
}

fn main(rt: HostRuntime) {
    let mut reader = rt.stdin();
    let mut input = [0u8; 65536];
    let mut table = [0u16; 256];
    let start = streaming::input::begin(&rt, &mut reader, b"list", &mut input, &mut table);
    if start.text.is_ok() {
        let mut lister = Lister {
            kept: [0u8; MOST_KEPT],
            table: &table,
        };
        streaming::all::tell_all(
            &rt,
            &mut reader,
            b"list",
            &mut input,
            start.behind,
            &mut lister,
        );
    }
}
