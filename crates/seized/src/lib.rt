// The signalling receiver (document 01, "Receivers"; document 02, wish 3).
#![tactic(auto)]

ghost use Rattle.std.specs.Prelude.{◌≡◌};
ghost use Rattle.seized.specs.Receiver.{fresh_receiver, step_from, fill_of, periods_of, receiver_after, received};

use counts::SignallingCount;
use refusal::Refusal;
use signalling::layout::Signalling;

// The farthest step that is replayed; a payload beyond it is older.
const FARTHEST: u8 = 63;

// A receiver: whether a payload was accepted before, and its number; the last sample of the record; the current value; the
// alarm.
#[derive(Clone, Copy)]
pub struct Receiver {
    heard: bool,
    last: SignallingCount,
    tail: u8,
    pub value: u8,
    pub alarm: bool,
}

// What a payload appends: how many filled periods, and the sample of which each is ten; how many carried periods, their samples
// oldest first from place 0, then 0.
#[derive(Clone, Copy)]
pub struct Appended {
    pub fills: u8,
    pub fill: u8,
    pub carried: u8,
    pub periods: [u8; 30],
}

// The newest periods of a payload, oldest first, from place 0 on.
fn periods_of(samples: [u8; 30], step: u8) -> [u8; 30]
    ensures { result ≡ periods_of samples step }
{
    let mut periods = [0u8; 30];
    let from = octets::wide(3 - replay::carried_count(step)) * 10;
    periods[..30 - from].copy_from_slice(&samples[from..]);
    periods
}

impl Receiver {
    // A receiver that has heard nothing yet.
    pub fn fresh() -> Receiver
        ensures { result ≡ fresh_receiver }
    {
        Receiver {
            heard: false,
            last: SignallingCount(0),
            tail: 0,
            value: 0,
            alarm: false,
        }
    }

    // The step that a payload takes, by its sequence.
    fn step_from(self, new: SignallingCount) -> u8
        ensures { result ≡ step_from self new }
    {
        replay::step_taken(self.heard, self.last.step_to(new))
    }

    // The content of the fills, ten of one sample each; 0 where there are none.
    fn fill_of(self, step: u8) -> u8
        ensures { result ≡ fill_of self step }
    {
        if replay::fill_count(step) == 0 {
            return 0;
        }
        self.tail
    }

    // The receiver after an accepted payload.
    fn receiver_after(self, signalling: Signalling, step: u8) -> Receiver
        ensures { result ≡ receiver_after self signalling step }
    {
        let samples = signalling.samples;
        if step == 0 {
            return Receiver {
                heard: true,
                last: signalling.sequence,
                tail: self.tail,
                value: samples[0],
                alarm: signalling.alarm,
            };
        }
        Receiver {
            heard: true,
            last: signalling.sequence,
            tail: samples[29],
            value: samples[29],
            alarm: signalling.alarm,
        }
    }

    // Takes a signalling payload. A refused one, as an older one is, leaves the receiver as it was.
    #[tactic(auto, unfolding(crate::specs::Receiver::received))]
    pub fn receive(&mut self, payload: &[u8]) -> Result<Appended, Refusal>
        ensures answer { result ≡ (received self.old payload.now).answer }
        ensures after { self.new ≡ (received self.old payload.now).receiver }
    {
        let signalling = signalling::layout::read_signalling(payload)?;
        let step = self.step_from(signalling.sequence);
        if FARTHEST < step {
            return Err(Refusal::OlderPayload);
        }
        let appended = Appended {
            fills: replay::fill_count(step),
            fill: self.fill_of(step),
            carried: replay::carried_count(step),
            periods: periods_of(signalling.samples, step),
        };
        *self = self.receiver_after(signalling, step);
        Ok(appended)
    }
}
