// The digit receiver (document 01, "Receivers"; document 02, wish 3).
#![tactic(auto)]

ghost use Rattle.std.specs.Prelude.{◌≡◌};
ghost use Rattle.dialled.specs.Receiver.{fresh_receiver, step_from, fill_of, periods_of, receiver_after, received, voice_heard};

use counts::DigitCount;
use digits::layout::{Digits, Window};
use refusal::Refusal;

// The farthest step that is replayed; a payload beyond it is older.
const FARTHEST: u8 = 127;

// What the next payload is held against: whether one was heard, its sequence, and the state that a fill repeats.
#[derive(Clone, Copy)]
pub struct Receiver {
    heard: bool,
    last: DigitCount,
    on: bool,
    code: u8,
}

// What a payload appends: so many filled periods, all of one content, then so many of the periods, oldest first; unused
// places are off.
#[derive(Clone, Copy)]
pub struct Appended {
    pub fills: u8,
    pub fill: Window,
    pub carried: u8,
    pub periods: [Window; 3],
}

// The newest periods of a payload, oldest first.
fn periods_of(digits: Digits, step: u8) -> [Window; 3]
    ensures { result ≡ periods_of digits step }
{
    let off = digits::layout::off_window();
    match step {
        0 => [off, off, off],
        1 => [digits.current, off, off],
        2 => [digits.recent, digits.current, off],
        _ => [digits.previous, digits.recent, digits.current],
    }
}

impl Receiver {
    // The receiver before the first payload.
    pub fn fresh() -> Receiver
        ensures { result ≡ fresh_receiver }
    {
        Receiver {
            heard: false,
            last: DigitCount(0),
            on: false,
            code: 0,
        }
    }

    // The step that a payload takes, by its sequence.
    fn step_from(self, new: DigitCount) -> u8
        ensures { result ≡ step_from self new }
    {
        replay::step_taken(self.heard, self.last.step_to(new))
    }

    // The content of the fills; an unused place where there are none.
    fn fill_of(self, step: u8) -> Window
        ensures { result ≡ fill_of self step }
    {
        if replay::fill_count(step) == 0 {
            return digits::layout::off_window();
        }
        Window {
            on: self.on,
            edge: 0,
            code: self.code,
        }
    }

    // The receiver after an accepted payload.
    fn receiver_after(self, digits: Digits, step: u8) -> Receiver
        ensures { result ≡ receiver_after self digits step }
    {
        if step == 0 {
            return self;
        }
        Receiver {
            heard: true,
            last: digits.sequence,
            on: digits.current.on,
            code: digits.current.code,
        }
    }

    // Takes a digits payload. A refused one, as an older one is, leaves the receiver as it was.
    #[tactic(auto, unfolding(crate::specs::Receiver::received))]
    pub fn receive(&mut self, payload: &[u8]) -> Result<Appended, Refusal>
        ensures answer { result ≡ (received self.old payload.now).answer }
        ensures after { self.new ≡ (received self.old payload.now).receiver }
    {
        let digits = digits::layout::read_digits(payload)?;
        let step = self.step_from(digits.sequence);
        if FARTHEST < step {
            return Err(Refusal::OlderPayload);
        }
        let appended = Appended {
            fills: replay::fill_count(step),
            fill: self.fill_of(step),
            carried: replay::carried_count(step),
            periods: periods_of(digits, step),
        };
        *self = self.receiver_after(digits, step);
        Ok(appended)
    }

    // Takes note of an accepted type 0 voice payload, which ends a sounding tone.
    pub fn hear_voice(&mut self)
        ensures { self.new ≡ voice_heard self.old }
    {
        self.on = false;
        self.code = 0;
    }
}
