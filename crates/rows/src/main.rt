// The work that is timed beside plain C (docs/SPEED.md): of one input, one row's work is done so many times, on its items in
// turn, and the answers are folded into one number, which is printed.
#![tactic(auto)]

mod fold;
mod items;
mod reads;
mod steps;
mod texts;
mod writes;

use crate::items::Works;

// What stands before the provisioning text: the row, how many times, and how long the text is.
const FRONT: usize = 7;

fn main(rt: HostRuntime) {
    let mut input = [0u8; 65536];
    let n = streaming::input::read_full(&mut rt.stdin(), &mut input);
    let acc = work(&mut input[..n]);
    let _ = println!(rt; "{acc}");
}

// The text is read into the table; the items stand behind it.
fn work(input: &mut [u8]) -> u64 {
    let size = items::size(input, 5);
    let mut table = [0u16; 256];
    let _ = provisioning::text::read_text(items::part(input, FRONT, size), &mut table);
    let row = octets::octet(input, 0);
    let works = Works {
        first: FRONT + size,
        count: count(input),
    };
    work_of(row, input, works, &mut table)
}

// How many times: four octets, the low one first.
fn count(input: &[u8]) -> u64 {
    u64::from(items::pair(input, 3)) * 65536 + u64::from(items::pair(input, 1))
}

// The work of a row, by its letter.
fn work_of(row: u8, items: &mut [u8], works: Works, table: &mut [u16; 256]) -> u64 {
    match row {
        b'c' | b'r' | b'h' => reads::work_of(row, items, works, table),
        b'w' | b'W' => writes::write_each(items, works, table, &mut [0u8; 1600], row == b'W'),
        b'p' | b'P' => texts::read_each(items, works, table, row == b'P'),
        _ => steps::work_of(row, items, works),
    }
}
