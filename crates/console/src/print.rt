// Lines of the output. Where a write fails, what it was to write is left out, and nothing is said of it.

// Octets as they are.
fn raw(rt: &impl Print, octets: &[u8]) {
    let _ = rt.write_all(octets);
}

// A name alone.
pub fn name(rt: &impl Print, name: &[u8]) {
    raw(rt, name);
    raw(rt, b"\n");
}

// A name and a decimal number.
pub fn number(rt: &impl Print, name: &[u8], number: u64) {
    raw(rt, name);
    let _ = println!(rt; "{number}");
}

// An octet in hex, with no line end.
fn octet(rt: &impl Print, octet: u8) {
    let _ = print!(rt; "{octet:02x}");
}

// A name and the octets from a place up to another in hex.
pub fn part(rt: &impl Print, name: &[u8], octets: &[u8], from: usize, to: usize) {
    raw(rt, name);
    for i in from..to {
        octet(rt, octets::octet(octets, i));
    }
    raw(rt, b"\n");
}

// A name and octets in hex.
pub fn octets(rt: &impl Print, name: &[u8], octets: &[u8]) {
    part(rt, name, octets, 0, octets.len());
}
