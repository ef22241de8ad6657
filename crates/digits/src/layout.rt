// Digits payloads, read and written (document 01, "Payload types": digits; FRF.11, A.3).
ghost use Rattle.std.specs.Prelude.{◌≡◌, false, ◌≤◌, length};
ghost use Rattle.octets.specs.Made.{fit_of, put_made, left_made};
ghost use Rattle.digits.specs.Layout.{off_window, window_of, window_reserved, any_reserved, digits_in, window_wrong, windows_wrong, digits_read, type_and_edge, code_when_on, level_low, level_code, digits_octets, digits_made};
ghost use Rattle.levels.specs.Level.{code_of};

use counts::DigitCount;
use levels::Beyond;
use refusal::Refusal;

// One 20 ms period: off or on with a code, and where in it the change lies, in ms.
#[derive(Clone, Copy, Debug, PartialEq, Eq)]
pub struct Window {
    pub on: bool,
    pub edge: u8,
    pub code: u8,
}

// A digits payload: the level in dBm0, which is 0 to -31 when read, and three periods.
#[derive(Clone, Copy, Debug, PartialEq, Eq)]
pub struct Digits {
    pub sequence: DigitCount,
    pub level: i8,
    pub current: Window,
    pub recent: Window,
    pub previous: Window,
}

// An off period without an edge: the start state, and what an unused place holds.
pub fn off_window() -> Window
    ensures { result ≡ off_window }
{
    Window {
        on: false,
        edge: 0,
        code: 0,
    }
}

// What a window's two octets tell: type and edge, then the code, which is ignored when off.
fn window_of(first: u8, second: u8) -> Window
    ensures { result ≡ window_of first second }
{
    let on = first / 32 == 1;
    Window {
        on,
        edge: first % 32,
        code: if on { second % 32 } else { 0 },
    }
}

// Whether a window's two octets have a type that is not in use, or a bit set before the code.
fn window_reserved(first: u8, second: u8) -> bool
    ensures { result ≡ window_reserved first second }
{
    1 < first / 32 || 0 < second / 32
}

// Whether a reserved bit or code stands in the level or in a window.
fn any_reserved(payload: &[u8]) -> bool
    requires { length payload.now ≡ 8 }
    ensures { result ≡ any_reserved payload.now }
{
    0 < payload[1] / 32
        || window_reserved(payload[2], payload[3])
        || window_reserved(payload[4], payload[5])
        || window_reserved(payload[6], payload[7])
}

// What the eight octets say.
fn digits_in(payload: &[u8]) -> Digits
    requires { length payload.now ≡ 8 }
    ensures { result ≡ digits_in payload.now }
{
    Digits {
        sequence: DigitCount(payload[0]),
        level: levels::level_of(payload[1]),
        current: window_of(payload[2], payload[3]),
        recent: window_of(payload[4], payload[5]),
        previous: window_of(payload[6], payload[7]),
    }
}

// An edge, or the code of an on window, that its bits or its range do not take.
pub fn window_wrong(w: Window) -> bool
    ensures { result ≡ window_wrong w }
{
    19 < w.edge || (w.on && 15 < w.code)
}

// Whether one of the three windows is wrong.
fn windows_wrong(digits: Digits) -> bool
    ensures { result ≡ windows_wrong digits }
{
    window_wrong(digits.current) || window_wrong(digits.recent) || window_wrong(digits.previous)
}

// Reads a digits payload.
#[tactic(auto, using(crate::proofs::LayoutCases::wrong, crate::proofs::LayoutCases::reserved, crate::proofs::LayoutCases::out, crate::proofs::LayoutCases::right))]
pub fn read_digits(payload: &[u8]) -> Result<Digits, Refusal>
    ensures { result ≡ digits_read payload.now }
{
    if payload.len() != 8 {
        return Err(Refusal::LengthWrong);
    }
    if any_reserved(payload) {
        return Err(Refusal::ReservedCode);
    }
    let digits = digits_in(payload);
    if windows_wrong(digits) {
        return Err(Refusal::ValueOutOfRange);
    }
    Ok(digits)
}

// Whether a level is below -31.
pub fn level_low(level: i8) -> bool
    ensures { result ≡ level_low (code_of 31 level) }
{
    levels::code_of(level, 31) == Err(Beyond::Below)
}

// The octet of a level: above zero is coded 0.
fn level_code(level: i8) -> u8
    ensures { result ≡ level_code (code_of 31 level) }
{
    levels::code_of(level, 31).unwrap_or(0)
}

// The octets of a digits payload, or the refusal.
#[tactic(auto, using(crate::proofs::LayoutCases::low, crate::proofs::LayoutCases::wrongs, crate::proofs::LayoutCases::all_right))]
pub fn fit_digits(digits: Digits) -> Result<usize, Refusal>
    ensures { result ≡ fit_of (digits_made digits) }
{
    if level_low(digits.level) || windows_wrong(digits) {
        return Err(Refusal::ValueOutOfRange);
    }
    Ok(8)
}

// A window's first octet, where its edge is in its range.
fn type_and_edge(w: Window) -> u8
    requires { w.edge ≤ 19 }
    ensures { result ≡ type_and_edge w }
{
    if w.on { 32 + w.edge } else { w.edge }
}

// A window's second octet.
fn code_when_on(w: Window) -> u8
    ensures { result ≡ code_when_on w }
{
    if w.on { w.code } else { 0 }
}

// The eight octets of a digits payload that fits.
fn octets_of(digits: Digits) -> [u8; 8]
    requires { windows_wrong digits ≡ false }
    ensures { result ≡ digits_octets digits }
{
    [
        digits.sequence.0,
        level_code(digits.level),
        type_and_edge(digits.current),
        code_when_on(digits.current),
        type_and_edge(digits.recent),
        code_when_on(digits.recent),
        type_and_edge(digits.previous),
        code_when_on(digits.previous),
    ]
}

// Writes a digits payload at a place of lent room.
#[tactic(auto, using(crate::proofs::LayoutBack::fit_right, crate::proofs::LayoutBack::fit_made))]
pub fn put_digits(room: &mut [u8], at: usize, digits: Digits) -> Result<usize, Refusal>
    ensures answer { result ≡ put_made room.old at (digits_made digits) }
    ensures holds { room.new ≡ left_made room.old at (digits_made digits) }
{
    fit_digits(digits)?;
    let payload = octets_of(digits);
    octets::put_octets(room, at, &payload)
}
