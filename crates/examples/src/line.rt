// The octets that a line states, and parts of octets.

// The octets in hex behind the key of a line, and zeros behind them.
pub fn octets_of(line: &[u8]) -> [u8; 600] {
    let mut room = [0u8; 600];
    console::hex::decode(line, console::key::size(line), &mut room);
    room
}
