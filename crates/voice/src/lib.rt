// Voice payloads, read and written (document 01, "Payload types": acelp, pcm, g727, g728, g7231).
#![tactic(auto)]

ghost use Rattle.std.specs.Prelude.{◌≡◌, true, ◌*◌, ◌/◌, ◌%◌, ◌^◌, ◌<◌, ◌≤◌, ◌∷◌, Ok, Err};
ghost use Rattle.octets.specs.Made.{fit_of, put_made, left_made};
ghost use Rattle.refusal.specs.declared.Refusal.TheVariants.{TypeNotAllowed};
ghost use Rattle.refusal.specs.Order.{◌gives◌, in_order};
ghost use Rattle.voice.specs.Voice.{codings, g7231_octets, is_g7231, seq_front, front_by, front_of, voiceless, body_refusals, voice_read, most_sequence, voice_made};
ghost use Rattle.voice.specs.Private.{length_judged, in_hex, fives_at};

use counts::VoiceCount;
use record::syntax::{Record, Syntax, place_of};
use refusal::Refusal;

// The bits per sample, of Annex F and of Annex G: a hex digit for each coding type, code 0 in the last. A digit that is 0 or not
// written: no such coding type. The groups are the algorithms of Figure F - 4 and the cores of Figure G - 2.
const PCM_BITS: u64 = 0x2345_2345_678_678;

const G727_BITS: u64 = 0x514_54213_5433212;

// Acelp and g728 have code 0 alone, with twice five octets; of acelp that is no count of bits per sample.
const TEN_OCTETS: u64 = 0x2;

// What a voice payload tells; the body begins behind `front` octets.
#[derive(Clone, Copy, Debug, PartialEq, Eq)]
pub struct Voice {
    pub sequence: VoiceCount,
    pub coding: u8,
    pub front: usize,
}

// How many coding types a syntax has; data and fax have none.
pub fn coding_count(syntax: Syntax) -> u8
    ensures { result ≡ codings syntax }
{
    match syntax {
        Syntax::Acelp => 1,
        Syntax::Pcm => 14,
        Syntax::G727 => 15,
        Syntax::G728 => 1,
        Syntax::G7231 => 1,
        Syntax::Data => 0,
        Syntax::Fax => 0,
    }
}

// How many times five octets each coding type has, a hex digit for each: of a syntax whose body is m blocks (acelp, pcm, g727, g728), by
// its place in document 01's list of syntax words.
fn fives_at(at: u16) -> u64
    ensures { result ≡ in_hex (fives_at at) }
{
    if at == place_of(Syntax::Pcm) {
        return PCM_BITS;
    }
    if at == place_of(Syntax::G727) {
        return G727_BITS;
    }
    TEN_OCTETS
}

// The octets of a coding type; 0 where there is no such one. A bit of each of forty samples takes five octets.
fn five_times(fives: u64, coding: u8) -> usize
    requires { coding < 16 }
    ensures { result ≡ fives / 2 ^ (coding * 4) % 16 * 5 }
{
    ((fives >> (coding * 4)) % 16 * 5) as usize
}

// Judges a body of `len` octets that is to be m blocks of so many octets each.
fn length_refusal(m: u8, each: usize, len: usize) -> Result<(), Refusal>
    requires { each ≤ 40 }
    ensures { result ≡ length_judged m each len }
{
    if len != octets::wide(m) * each {
        return Err(Refusal::LengthWrong);
    }
    Ok(())
}

// The octets of one G.723.1 frame, from its first octet.
#[tactic(auto, unfolding(crate::specs::Voice::g7231_octets))]
fn g7231_octets(first: u8) -> usize
    ensures { result ≡ g7231_octets first }
{
    if first % 2 == 0 { 24 } else { 20 }
}

// Judges one G.723.1 frame.
#[tactic(auto, using(crate::proofs::Sizes::frame_coding), unfolding(crate::specs::Voice::body_octets))]
fn frame_refusal(rec: Record, coding: u8, body: &[u8]) -> Result<(), Refusal>
    requires { is_g7231 rec.syntax ≡ true }
    ensures { result ≡ in_order (body_refusals rec coding body.now) Err (Ok tt) }
{
    let Some(&first) = body.first() else {
        return Err(Refusal::LengthWrong);
    };
    if coding != 0 {
        return Err(Refusal::CodingTypeUnknown);
    }
    if first % 4 == 3 {
        return Err(Refusal::ReservedCode);
    }
    if body.len() != g7231_octets(first) {
        return Err(Refusal::LengthWrong);
    }
    Ok(())
}

// Judges a body with its coding type. In document 01's list of syntax words those of blocks come first, then g7231, then
// data and fax. Arms for them would compile to a jump table (docs/DECISIONS.md, "a voice body is judged by one number").
#[tactic(auto, using(crate::proofs::Bits::each_small, crate::proofs::Bits::blocks_unknown, crate::proofs::Bits::blocks_known))]
fn body_refusal(rec: Record, coding: u8, body: &[u8]) -> Result<(), Refusal>
    ensures { result ≡ in_order (voiceless rec.syntax gives TypeNotAllowed ∷ body_refusals rec coding body.now) Err (Ok tt) }
{
    let at = place_of(rec.syntax);
    let g7231 = place_of(Syntax::G7231);
    if g7231 < at {
        return Err(Refusal::TypeNotAllowed);
    }
    if at == g7231 {
        return frame_refusal(rec, coding, body);
    }
    if 15 < coding {
        return Err(Refusal::CodingTypeUnknown);
    }
    let each = five_times(fives_at(at), coding);
    if each == 0 {
        return Err(Refusal::CodingTypeUnknown);
    }
    length_refusal(rec.m, each, body.len())
}

fn seq_front(seq: bool) -> usize
    ensures { result ≡ seq_front seq }
{
    usize::from(seq)
}

fn front_by(syntax: Syntax, seq: bool) -> usize
    ensures { result ≡ front_by syntax seq }
{
    let one = seq_front(seq);
    match syntax {
        Syntax::Acelp | Syntax::G728 | Syntax::G7231 => one,
        Syntax::Pcm | Syntax::G727 => 1,
        Syntax::Data | Syntax::Fax => 0,
    }
}

// How many octets stand in front of the body.
#[tactic(auto, unfolding(crate::specs::Voice::front_of))]
fn front_size(rec: Record) -> usize
    ensures { result ≡ front_of rec }
{
    front_by(rec.syntax, rec.seq)
}

// Reads a voice payload.
#[tactic(auto, using(crate::proofs::VoiceCases::missing, crate::proofs::VoiceCases::read_by))]
pub fn read_voice(rec: Record, payload: &[u8]) -> Result<Voice, Refusal>
    ensures { result ≡ voice_read rec payload.now }
{
    let front = front_size(rec);
    if payload.len() < front {
        return Err(Refusal::LengthWrong);
    }
    let octet = octets::octet(&payload[..front], 0);
    let coding = octet % 16;
    body_refusal(rec, coding, &payload[front..])?;
    Ok(Voice {
        sequence: VoiceCount(octet / 16),
        coding,
        front,
    })
}

// The largest sequence that a payload with so many front octets carries.
fn most_sequence(front: usize) -> u8
    ensures { result ≡ most_sequence front }
{
    if front == 0 { 0 } else { 15 }
}

// The octets of a voice payload with this body, or the refusal.
#[tactic(auto, using(crate::proofs::VoiceCases::fit_by, crate::proofs::VoiceCases::fit_beyond, crate::proofs::VoiceCases::fit_within, crate::proofs::Sizes::front_small))]
pub fn fit_voice(
    rec: Record,
    sequence: VoiceCount,
    coding: u8,
    body: &[u8],
) -> Result<usize, Refusal>
    ensures { result ≡ fit_of (voice_made rec sequence.0 coding body.now) }
{
    body_refusal(rec, coding, body)?;
    let front = front_size(rec);
    if most_sequence(front) < sequence.0 {
        return Err(Refusal::ValueOutOfRange);
    }
    Ok(front + body.len())
}

// Writes a voice payload at a place of lent room.
#[tactic(auto, using(crate::proofs::VoiceCases::fit_made, crate::proofs::VoiceCases::fit_octet, crate::proofs::Sizes::front_small))]
pub fn put_voice(
    room: &mut [u8],
    at: usize,
    rec: Record,
    sequence: VoiceCount,
    coding: u8,
    body: &[u8],
) -> Result<usize, Refusal>
    ensures answer { result ≡ put_made room.old at (voice_made rec sequence.0 coding body.now) }
    ensures holds { room.new ≡ left_made room.old at (voice_made rec sequence.0 coding body.now) }
{
    fit_voice(rec, sequence, coding, body)?;
    let head = [sequence.0 * 16 + coding];
    let front = front_size(rec);
    octets::put_both(room, at, &head[..front], body)
}
