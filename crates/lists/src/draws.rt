// Draws from a seed: the same seed draws the same again.

// The next state of the draws of one sub-frame.
fn after(state: u64) -> u64 {
    (state % 2147483648 * 1103515245 + 12345) % 2147483648
}

// The seed of the next sub-frame: another generator, so that its draws are not those of the sub-frame before it, shifted.
pub fn next_seed(seed: u64) -> u64 {
    seed % 2147483647 * 48271 % 2147483647
}

// The seed of the next list, 128 seeds on: a list takes 65 at most.
pub fn far_seed(seed: u64) -> u64 {
    seed % 2147483647 * 1617261148 % 2147483647
}

// Fifteen bits.
fn bits(state: &mut u64) -> u64 {
    *state = after(*state);
    *state / 65536
}

pub fn number(state: &mut u64) -> u16 {
    (bits(state) % 32768) as u16
}

pub fn octet(state: &mut u64) -> u8 {
    (bits(state) % 256) as u8
}

// A number below another, and 0 below 0.
pub fn below(state: &mut u64, end: u8) -> u8 {
    let drawn = octet(state);
    if end == 0 { 0 } else { drawn % end }
}

pub fn flag(state: &mut u64) -> bool {
    octet(state) < 128
}
