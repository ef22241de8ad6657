// Lower-case hex characters into octets (document 01, "Listing program").
ghost use Rattle.std.specs.Prelude.{◌≡◌, ◌+◌, ◌*◌, ◌/◌, ◌%◌, ◌≤◌, false, length, if◌then◌else◌};
ghost use Rattle.octets.specs.Room.{written};
ghost use Rattle.hexline.specs.Hex.{hex_value, is_other, any_other, paired};

// 0 of a hex character, 1 of any other.
fn flaw(c: u8) -> u8
    ensures { result ≡ (if is_other c then 1 else 0) }
{
    if c.wrapping_sub(b'0') < 10 {
        return 0;
    }
    if c.wrapping_sub(b'a') < 6 {
        return 0;
    }
    1
}

// Whether another character is among these. The loop has one way out, so that the compiler takes many characters at a time.
pub(crate) fn any_other(chars: &[u8]) -> bool
    ensures { result ≡ any_other chars.now }
{
    let mut flaws: u8 = 0;
    for c in chars {
        flaws |= flaw(*c);
    }
    flaws == 1
}

// The octet of two hex characters, of which the first stands in the low half of a number. Both are told at once, which lets the
// compiler take many pairs at a time: a letter stands 39 further from `0` than its value, and the bit of 16 in that distance tells it
// from a digit.
fn octet_of(both: u16) -> u8
    requires both_bound { hex_value (both % 256) ≤ 15 }
    requires both_bound_2 { hex_value (both / 256) ≤ 15 }
    ensures { result ≡ hex_value (both % 256) * 16 + hex_value (both / 256) }
{
    let distances = both - 12336;
    let letters = distances / 16 & 257;
    let values = distances - letters * 39;
    ((values * 16 + values / 256) % 256) as u8
}

// The octets of hex characters, at the start of `frame`.
pub(crate) fn decode(chars: &[u8], frame: &mut [u8])
    requires chars_value { any_other chars.now ≡ false }
    requires chars_in_bounds { length chars.now / 2 ≤ length frame.old }
    ensures { frame.new ≡ written frame.old 0 (paired chars.now) }
{
    for i in 0..chars.len() / 2 {
        frame[i] = octet_of(octets::double(chars[i * 2 + 1], chars[i * 2]));
    }
}
