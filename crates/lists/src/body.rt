// Octets that pass through, drawn from a seed, and parts of octets.

// As many octets: the first given, the others drawn and masked.
#[derive(Clone, Copy)]
pub struct Body {
    pub len: usize,
    pub first: u8,
    pub mask: u8,
    pub seed: u64,
}

// As many octets, each of any value.
pub fn drawn(len: usize, seed: u64) -> Body {
    let mut at = seed;
    let first = crate::draws::octet(&mut at);
    Body {
        len,
        first,
        mask: 255,
        seed: at,
    }
}

// Puts a body at the start of lent room, as far as there is room.
pub fn fill(room: &mut [u8], body: Body) {
    let mut state = body.seed;
    let mut octet = body.first;
    for place in room.iter_mut().take(body.len) {
        *place = octet;
        octet = crate::draws::octet(&mut state) & body.mask;
    }
}

// Room with the octets of a body at its start.
pub fn filled(body: Body) -> [u8; 1600] {
    let mut room = [0u8; 1600];
    fill(&mut room, body);
    room
}

// Whether octets are those of a body.
pub fn same(octets: &[u8], body: Body) -> bool {
    let mut room = [0u8; 1600];
    fill(&mut room, body);
    octets == room.get(..body.len).unwrap_or(&[])
}
