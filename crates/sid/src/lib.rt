// Silence descriptors, read and written (document 01, "Payload types": SID).
#![tactic(auto)]

ghost use Rattle.std.specs.Prelude.{◌≡◌};
ghost use Rattle.levels.specs.Level.{code_of};
ghost use Rattle.octets.specs.Made.{fit_of, put_made, left_made};
ghost use Rattle.sid.specs.Sid.{sid_octets, sid_read, out_of_range, magnitude_in, sid_made};

use counts::VoiceCount;
use record::syntax::Syntax;
use refusal::Refusal;

// What a silence descriptor carries: the noise level, 0 to -63 dBm0, or nothing.
#[derive(Clone, Copy, Debug, PartialEq, Eq)]
pub enum Sid {
    Noise { sequence: VoiceCount, level: i8 },
    Plain,
}

// The octets of a descriptor.
fn sid_octets(syntax: Syntax) -> usize
    ensures { result ≡ sid_octets syntax }
{
    match syntax {
        Syntax::Acelp => 0,
        Syntax::Pcm => 2,
        Syntax::G727 => 2,
        Syntax::G728 => 0,
        Syntax::G7231 => 0,
        Syntax::Data => 0,
        Syntax::Fax => 0,
    }
}

// Reads a silence descriptor.
#[tactic(auto, unfolding(crate::specs::Sid::sid_read))]
pub fn read_sid(syntax: Syntax, payload: &[u8]) -> Result<Sid, Refusal>
    ensures { result ≡ sid_read syntax payload.now }
{
    if voice::coding_count(syntax) == 0 {
        return Err(Refusal::TypeNotAllowed);
    }
    let due = sid_octets(syntax);
    if payload.len() != due {
        return Err(Refusal::LengthWrong);
    }
    if due == 0 {
        return Ok(Sid::Plain);
    }
    Ok(Sid::Noise {
        sequence: VoiceCount(octets::octet(payload, 0) / 16),
        level: levels::level_of(octets::octet(payload, 1)),
    })
}

// Whether a noise level is above 0 or below -63.
fn out_of_range(level: i8) -> bool
    ensures { result ≡ out_of_range (code_of 63 level) }
{
    levels::code_of(level, 63).is_err()
}

// The magnitude of a noise level that is in range.
fn magnitude(level: i8) -> u8
    ensures { result ≡ magnitude_in (code_of 63 level) }
{
    levels::code_of(level, 63).unwrap_or(0)
}

// The octets of a silence descriptor, or the refusal.
#[tactic(auto, unfolding(crate::specs::Sid::sid_made))]
pub fn fit_sid(syntax: Syntax, sid: Sid) -> Result<usize, Refusal>
    ensures { result ≡ fit_of (sid_made syntax sid) }
{
    if voice::coding_count(syntax) == 0 {
        return Err(Refusal::TypeNotAllowed);
    }
    let due = sid_octets(syntax);
    match sid {
        Sid::Noise { sequence, level } => {
            if due == 0 || 15 < sequence.0 || out_of_range(level) {
                return Err(Refusal::ValueOutOfRange);
            }
            Ok(2)
        }
        Sid::Plain => {
            if due != 0 {
                return Err(Refusal::LengthWrong);
            }
            Ok(0)
        }
    }
}

// Writes a silence descriptor at a place of lent room.
#[tactic(auto, using(crate::proofs::SidCases::plain_made, crate::proofs::SidCases::noise_put, crate::proofs::SidCases::noise_left, crate::proofs::SidCases::noise_four_bits))]
pub fn put_sid(room: &mut [u8], at: usize, syntax: Syntax, sid: Sid) -> Result<usize, Refusal>
    ensures answer { result ≡ put_made room.old at (sid_made syntax sid) }
    ensures holds { room.new ≡ left_made room.old at (sid_made syntax sid) }
{
    fit_sid(syntax, sid)?;
    match sid {
        Sid::Noise { sequence, level } => {
            let pair = [sequence.0 * 16, magnitude(level)];
            octets::put_octets(room, at, &pair)
        }
        Sid::Plain => octets::put_octets(room, at, b""),
    }
}
