// Sending signalling, a period of 20 ms at a time (document 01, "Senders, per 20 ms"; FRF.11, Annex B).
#![tactic(auto)]

ghost use Rattle.std.specs.Prelude.{◌≡◌, Ok};
ghost use Rattle.signalling.specs.Layout.{all_allowed};
ghost use Rattle.seizing.specs.Sender.{started, all_equal, decision, run_after, windows_after, decision_of, period, sent};

use counts::SignallingCount;
use refusal::Refusal;
use signalling::layout::Signalling;

// What a period brings: the alarm bit and ten samples, oldest first.
#[derive(Clone, Copy)]
pub struct Entry {
    pub alarm: bool,
    pub samples: [u8; 10],
}

// A sender: the number of the last sent period, the sample before the next period, the quiet periods of the run (25 again
// after each repeat), and the thirty samples of the last payload.
#[derive(Clone, Copy)]
pub struct Sender {
    last: SignallingCount,
    before: u8,
    quiet: u16,
    windows: [u8; 30],
}

// What is done with a period: it is sent, the last payload is repeated, or nothing goes out.
#[derive(Clone, Copy)]
enum Decision {
    Sends,
    Repeats,
    Rests,
}

// Whether all ten samples are allowed.
fn ten_allowed(samples: [u8; 10]) -> bool
    ensures { result ≡ all_allowed 10 0 samples }
{
    samples
        .iter()
        .all(|sample| signalling::layout::allowed(*sample))
}

// Whether all ten samples equal one.
fn all_equal(sample: u8, samples: [u8; 10]) -> bool
    ensures { result ≡ all_equal sample 10 0 samples }
{
    samples.iter().all(|other| sample == *other)
}

// What is done with a period, by whether it is quiet and the quiet periods of the run before it.
fn decide(quiet: bool, run: u16) -> Decision
    ensures { result ≡ decision quiet run }
{
    if quiet {
        if run < 25 {
            return Decision::Sends;
        }
        if run < 274 {
            return Decision::Rests;
        }
        return Decision::Repeats;
    }
    Decision::Sends
}

// The quiet periods of the run with this one.
fn run_after(quiet: bool, run: u16) -> u16
    ensures { result ≡ run_after quiet run }
{
    if quiet {
        if 274 <= run {
            return 25;
        }
        return run + 1;
    }
    0
}

// The windows with ten samples more: the oldest ten fall out.
fn windows_after(windows: [u8; 30], samples: [u8; 10]) -> [u8; 30]
    ensures { result ≡ windows_after windows samples }
{
    let mut after = [0u8; 30];
    after[..20].copy_from_slice(&windows[10..]);
    after[20..].copy_from_slice(&samples);
    after
}

impl Sender {
    // Starts a sender at a value.
    pub fn start(value: u8) -> Result<Sender, Refusal>
        ensures { result ≡ started value }
    {
        if !signalling::layout::allowed(value) {
            return Err(Refusal::ValueOutOfRange);
        }
        Ok(Sender {
            last: SignallingCount(127),
            before: value,
            quiet: 0,
            windows: [value; 30],
        })
    }

    // A period whose samples are allowed: what goes out is of the last number and windows, with the alarm of this period.
    #[tactic(auto, unfolding(crate::specs::Sender::period))]
    fn period(&mut self, entry: Entry) -> Option<Signalling>
        ensures answer { Ok result ≡ (period self.old entry (decision_of self.old entry)).answer }
        ensures after { self.new ≡ (period self.old entry (decision_of self.old entry)).sender }
    {
        let samples = entry.samples;
        let quiet = all_equal(self.before, samples);
        let decision = decide(quiet, self.quiet);
        self.before = samples[9];
        self.quiet = run_after(quiet, self.quiet);
        match decision {
            Decision::Sends => {
                self.last = self.last.next();
                self.windows = windows_after(self.windows, samples);
            }
            Decision::Repeats => {}
            Decision::Rests => return None,
        }
        let windows = self.windows;
        Some(Signalling {
            alarm: entry.alarm,
            sequence: self.last,
            samples: windows,
        })
    }

    // Takes a period: whether a payload goes out, and which. A refused one leaves the sender as it was.
    #[tactic(auto, unfolding(crate::specs::Sender::sent))]
    pub fn send(&mut self, entry: Entry) -> Result<Option<Signalling>, Refusal>
        ensures answer { result ≡ (sent self.old entry).answer }
        ensures after { self.new ≡ (sent self.old entry).sender }
    {
        if !ten_allowed(entry.samples) {
            return Err(Refusal::ValueOutOfRange);
        }
        Ok(self.period(entry))
    }
}
