// The number that answers are folded into, so that none is left out and their order counts.
ghost use Rattle.std.specs.Prelude.{◌≤◌};

use digits::layout::Window;
use levels::Beyond;

pub const FIRST: u64 = 1;

const LOW: u64 = 4294967296;

pub fn fold(acc: u64, x: u64) -> u64 {
    acc % LOW * 31 + x % LOW
}

pub fn octet(acc: u64, x: u8) -> u64 {
    fold(acc, u64::from(x))
}

pub fn flag(set: bool) -> u64
    ensures { result ≤ 1 }
{
    u64::from(set)
}

// The low octet of the number.
pub fn low(acc: u64) -> u8 {
    (acc % 256) as u8
}

// The magnitude of a level, and 200 of one above zero.
pub fn level(acc: u64, level: i8) -> u64 {
    match levels::code_of(level, 128) {
        Ok(magnitude) => octet(acc, magnitude),
        Err(Beyond::Above) => octet(acc, 200),
        Err(Beyond::Below) => octet(acc, 201),
    }
}

pub fn window(acc: u64, w: Window) -> u64 {
    fold(
        acc,
        flag(w.on) * 1024 + u64::from(w.edge) * 32 + u64::from(w.code),
    )
}

pub fn windows(acc: u64, one: Window, two: Window, three: Window) -> u64 {
    window(window(window(acc, one), two), three)
}

fn five(acc: u64, a: u8, b: u8, c: u8, d: u8, e: u8) -> u64 {
    fold(
        acc,
        u64::from(a)
            + u64::from(b) * 16
            + u64::from(c) * 256
            + u64::from(d) * 4096
            + u64::from(e) * 65536,
    )
}

// Five samples from a place on.
fn five_at(acc: u64, s: &[u8; 30], at: usize) -> u64
    requires { at ≤ 25 }
{
    five(acc, s[at], s[at + 1], s[at + 2], s[at + 3], s[at + 4])
}

// Thirty samples, five at a time.
pub fn samples(acc: u64, s: [u8; 30]) -> u64 {
    let half = five_at(five_at(five_at(acc, &s, 0), &s, 5), &s, 10);
    five_at(five_at(five_at(half, &s, 15), &s, 20), &s, 25)
}
