// Legal lists of sub-frames, drawn from a seed (document 01, "Frame and sub-frame"): each is written, opened, read back and
// compared with what was given. The input is the provisioning text: in the file stdin it has every syntax, every m, and both seq
// where both are listed, on CIDs below 64 and above. The output is an input of the listing program: that text, then a `frame=` line
// a list. Behind a frame that does not read back a line says `differs=` with the first sub-frame that differs, from 1; none does.
// The file stdout is this program's own output: the second program lists each of its sub-frames with answer 0, and with the
// CID, type and length that were drawn.
#![tactic(auto)]

mod body;
mod compare;
mod contents;
mod draws;
mod list;
mod reads;
mod writes;

use std::io::Read;

const LISTS: u64 = 200;

// With this one every coding type, m, fax command and modulation is drawn, and bench examples 13 and 14.
const FIRST_SEED: u64 = 12;

fn main(rt: HostRuntime) {
    let mut table = [0u16; 256];
    provision(&rt, &mut rt.stdin(), &mut table);
    let mut seed = FIRST_SEED;
    for number in 0..LISTS {
        one(&rt, &table, list::list_of(number, seed));
        seed = draws::far_seed(seed);
    }
}

// Prints the text of the input and reads it into a table.
fn provision(rt: &impl Print, reader: &mut impl Read, table: &mut [u16; 256]) {
    let mut input = [0u8; 65536];
    let n = streaming::input::read_full(reader, &mut input);
    let _ = rt.write_all(&input[..n]);
    let _ = provisioning::text::read_text(&input[..n], table);
}

// Writes one list into a lent frame, prints the frame, and reads it back.
fn one(rt: &impl Print, table: &[u16; 256], list: list::List) {
    let mut room = [0u8; 1600];
    let written = writes::write_list(&mut room, table, list);
    let frame = room.get(..written).unwrap_or(&[]);
    console::print::octets(rt, b"frame=", frame);
    if let Some(differs) = reads::first_differing(frame, table, list) {
        console::print::number(rt, b"differs=", differs as u64);
    }
}
