// Octets that a line states in lower-case hex.
ghost use Rattle.std.specs.Prelude.{◌≡◌, length, take, drop, IfSome};
ghost use Rattle.console.specs.Counts.{IsPrefixLen};
ghost use Rattle.octets.specs.Room.{written};
ghost use Rattle.console.specs.Hex.{digit, leading, decoded, signed_of};

// The value of a hex character; none of any other.
#[tactic(auto, unfolding(hexline::specs::Hex::hex_value))]
fn digit(character: u8) -> Option<u8>
    ensures { result ≡ digit character }
{
    match character {
        b'0'..=b'9' => Some(character - b'0'),
        b'a'..=b'f' => Some(character - b'a' + 10),
        _ => None,
    }
}

// The octets of the characters from a place on, at the start of the room, as many as are pairs of hex characters and as it takes; and
// how many they are, none where anything else stands there. An odd character at the end has no second, and is refused.
pub fn decode(text: &[u8], from: usize, room: &mut [u8]) -> Option<usize>
    ensures says { result ≡ decoded (length room.old) (drop from text.now) }
    ensures holds { room.new ≡ written room.old 0 (take (length room.old) (leading (drop from text.now))) }
    ensures counts { IfSome result (λ size. IsPrefixLen size room.new) }
{
    let pairs = text.len().saturating_sub(from).div_ceil(2);
    for n in 0..pairs {
        let at = from + n * 2;
        let high = digit(octets::octet(text, at))?;
        let low = digit(octets::octet(text, at + 1))?;
        if room.len() <= n {
            return None;
        }
        room[n] = high * 16 + low;
    }
    Some(pairs)
}

// A signed octet: from 128 on it stands for 256 less.
pub fn signed(octet: u8) -> i8
    ensures { result ≡ signed_of octet }
{
    octet.cast_signed()
}
