// Examples of document 01's refusals 11 to 16, 22 and 31 to 34, run: a line a case, what is answered behind its name.
// The cases are the lines of the input: the name of one, then its kind and what is given, octets in hex or a text. Each line is
// known by its first letter.
#![tactic(auto)]

mod contents;
mod line;
mod texts;

use console::input::{Input, Line};
use std::io::Read;

// No run has as many lines.
const MOST_LINES: u64 = 10000;

fn main(rt: HostRuntime) {
    let mut reader = rt.stdin();
    let mut block = [0u8; 65536];
    let mut table = [0u16; 256];
    let mut input = Input { taken: 0, have: 0 };
    for _ in 0..MOST_LINES {
        let line = one(&rt, &mut reader, &mut block, input, &mut table);
        if !line.whole {
            return;
        }
        input = line.input;
    }
}

// Reads a line and takes it; the table has the text that was taken last.
fn one(
    rt: &impl Print,
    reader: &mut impl Read,
    block: &mut [u8; 65536],
    input: Input,
    table: &mut [u16; 256],
) -> Line {
    let mut room = [0u8; 400];
    let line = console::input::read_line(reader, block, &mut room, input);
    if line.whole {
        take(rt, room.get(..line.size).unwrap_or(&[]), table);
    }
    line
}

fn take(rt: &impl Print, line: &[u8], table: &mut [u16; 256]) {
    match octets::octet(line, 0) {
        b'n' => name(rt, line.get(5..).unwrap_or(&[])),
        b't' => texts::text(rt, line.get(5..).unwrap_or(&[]), table),
        b'l' => texts::long(rt, line, table),
        _ => contents::take(rt, line, table),
    }
}

// `name=`: the name of a case.
fn name(rt: &impl Print, name: &[u8]) {
    let _ = rt.write_all(name);
    let _ = rt.write_all(b": ");
}
