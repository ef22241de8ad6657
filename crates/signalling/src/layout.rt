// Signalling payloads, read and written (document 01, "Payload types": signalling; FRF.11, B.3).
ghost use Rattle.std.specs.Prelude.{◌≡◌, length, drop, true, ◌≤◌};
ghost use Rattle.octets.specs.Made.{fit_of, put_made, left_made};
ghost use Rattle.signalling.specs.Layout.{halves, allowed, signalling_read, all_allowed, first_octet, pairs, signalling_made};

use counts::SignallingCount;
use refusal::Refusal;

// A signalling payload: the alarm bit, and 30 samples of four bits, oldest first.
#[derive(Clone, Copy, Debug, PartialEq, Eq)]
pub struct Signalling {
    pub alarm: bool,
    pub sequence: SignallingCount,
    pub samples: [u8; 30],
}

// The thirty samples of fifteen octets that stand behind the first one.
fn samples_of(payload: &[u8]) -> [u8; 30]
    requires { length payload.now ≡ 16 }
    ensures { result ≡ halves (drop 1 payload.now) }
{
    let mut samples = [0u8; 30];
    for i in 0..15 {
        let octet = payload[i + 1];
        samples[i + i] = octet % 16;
        samples[i + i + 1] = octet / 16;
    }
    samples
}

// Reads a signalling payload.
#[tactic(auto, unfolding(crate::specs::Layout::signalling_read))]
pub fn read_signalling(payload: &[u8]) -> Result<Signalling, Refusal>
    ensures { result ≡ signalling_read payload.now }
{
    if payload.len() != 16 {
        return Err(Refusal::LengthWrong);
    }
    let octet = payload[0];
    Ok(Signalling {
        alarm: octet / 128 == 1,
        sequence: SignallingCount(octet % 128),
        samples: samples_of(payload),
    })
}

// Whether a sample is allowed.
pub fn allowed(sample: u8) -> bool
    ensures { result ≡ allowed sample }
{
    sample < 16
}

// Whether all thirty samples are allowed.
fn all_allowed(samples: [u8; 30]) -> bool
    ensures { result ≡ all_allowed 30 0 samples }
{
    samples.iter().all(|sample| allowed(*sample))
}

// The octets of a signalling payload, or the refusal.
#[tactic(auto, unfolding(crate::specs::Layout::signalling_made), using(crate::proofs::LayoutBack::length_pairs))]
pub fn fit_signalling(signalling: Signalling) -> Result<usize, Refusal>
    ensures { result ≡ fit_of (signalling_made signalling) }
{
    if 127 < signalling.sequence.0 {
        return Err(Refusal::ValueOutOfRange);
    }
    if !all_allowed(signalling.samples) {
        return Err(Refusal::ValueOutOfRange);
    }
    Ok(16)
}

// The first octet; of the sequence there are seven bits.
fn first_octet(signalling: Signalling) -> u8
    requires { signalling.sequence.0 ≤ 127 }
    ensures { result ≡ first_octet signalling }
{
    let sequence = signalling.sequence.0;
    if signalling.alarm {
        128 + sequence
    } else {
        sequence
    }
}

// The fifteen octets of thirty allowed samples.
fn pairs_of(samples: [u8; 30]) -> [u8; 15]
    requires { all_allowed 30 0 samples ≡ true }
    ensures { result ≡ pairs 15 0 samples }
{
    let mut octets = [0u8; 15];
    for i in 0..15 {
        let low = samples[i + i];
        let high = samples[i + i + 1];
        octets[i] = low + high * 16;
    }
    octets
}

// Writes a signalling payload at a place of lent room.
pub fn put_signalling(room: &mut [u8], at: usize, signalling: Signalling) -> Result<usize, Refusal>
    ensures answer { result ≡ put_made room.old at (signalling_made signalling) }
    ensures holds { room.new ≡ left_made room.old at (signalling_made signalling) }
{
    fit_signalling(signalling)?;
    let first = [first_octet(signalling)];
    let pairs = pairs_of(signalling.samples);
    octets::put_both(room, at, &first, &pairs)
}
