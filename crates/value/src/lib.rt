// The values of the lines of a provisioning text: a number or a syntax word, each ended by LF (document 01, "Provisioning text").
#![tactic(auto)]

ghost use Rattle.std.specs.Prelude.{◌≡◌, ◌≤◌, Some, IfSome};
ghost use Rattle.value.specs.Value.{digit_of, number_by, number_of, valued, word_of};
ghost use Rattle.record.specs.Record.{place};

use octets::text::LF;
use record::syntax::Syntax;

// What stands behind a key: a number; or the place of a syntax word in document 01's list. `size` counts the octets with the LF.
// Both are 0 for any other word.
#[derive(Clone, Copy)]
pub struct Value {
    pub value: u16,
    pub size: usize,
}

// The value of a digit.
#[tactic(auto, unfolding(crate::specs::Value::digit_of))]
fn digit_of(octet: u8) -> Option<u16>
    ensures says { result ≡ digit_of octet }
    ensures digit { IfSome result (λ d. d ≤ 9) }
{
    match octet {
        b'0'..=b'9' => Some(u16::from(octet - b'0')),
        _ => None,
    }
}

// The number that four octets start with: one to three digits, no leading zero, then LF.
#[tactic(auto, unfolding(crate::specs::Value::number_by, crate::specs::Value::second_digit, crate::specs::Value::third_digit))]
fn number_by(first: u8, second: u8, third: u8, fourth: u8) -> Option<Value>
    ensures { result ≡ number_by first second third fourth }
{
    let a = digit_of(first)?;
    if second == LF {
        return Some(Value { value: a, size: 2 });
    }
    if a == 0 {
        return None;
    }
    let b = digit_of(second)?;
    let ab = a * 10 + b;
    if third == LF {
        return Some(Value { value: ab, size: 3 });
    }
    let c = digit_of(third)?;
    if fourth == LF {
        return Some(Value {
            value: ab * 10 + c,
            size: 4,
        });
    }
    None
}

// The number that a text starts with: `None` where it is malformed, or no LF comes.
pub fn number_of(s: &[u8]) -> Option<Value>
    ensures { result ≡ number_of s.now }
{
    number_by(
        octets::octet(s, 0),
        octets::octet(s, 1),
        octets::octet(s, 2),
        octets::octet(s, 3),
    )
}

// The word of a syntax, with its LF.
fn known(syntax: Syntax, size: usize) -> Option<Value>
    ensures { result ≡ Some (valued (place syntax) size) }
{
    Some(Value {
        value: record::syntax::place_of(syntax),
        size,
    })
}

// The syntax word that a text starts with: `None` where no LF comes.
#[tactic(auto, unfolding(crate::specs::Value::word_among))]
pub fn word_of(s: &[u8]) -> Option<Value>
    ensures { result ≡ word_of s.now }
{
    if octets::text::starts(s, b"acelp\n") {
        return known(Syntax::Acelp, 6);
    }
    if octets::text::starts(s, b"pcm\n") {
        return known(Syntax::Pcm, 4);
    }
    if octets::text::starts(s, b"g727\n") {
        return known(Syntax::G727, 5);
    }
    if octets::text::starts(s, b"g728\n") {
        return known(Syntax::G728, 5);
    }
    if octets::text::starts(s, b"g7231\n") {
        return known(Syntax::G7231, 6);
    }
    if octets::text::starts(s, b"data\n") {
        return known(Syntax::Data, 5);
    }
    if octets::text::starts(s, b"fax\n") {
        return known(Syntax::Fax, 4);
    }
    // Any other word.
    if octets::text::has_lf(s) {
        return Some(Value { value: 0, size: 0 });
    }
    None
}
