// The counts of FRF.11 (document 01, "The digit count, the signalling count, the voice count and the data count"; document 02,
// wish 1: the fax count): a type each, so that one never stands in for another. Each goes on by one and tells the step to
// another, round its width, for every value that its type can hold.
#![tactic(auto)]

ghost use Rattle.std.specs.Prelude.{◌≡◌, ◌%◌, ◌^◌, ◌<◌};
ghost use Rattle.counts.specs.Round.{onward, step};

// n round a width in bits: what stands under its mask.
fn round(n: u16, bits: u16) -> u16
    requires { bits < 16 }
    ensures { result ≡ n % 2 ^ bits }
{
    n & ((1 << bits) - 1)
}

// The step from one count to another, round a width.
fn step_round(last: u16, new: u16, bits: u16) -> u16
    requires { bits < 16 }
    ensures { result ≡ step bits last new }
{
    round(new.wrapping_sub(last), bits)
}

// Counts of 4 bits: on by one, and the step.
fn next_four(count: u8) -> u8
    ensures { result ≡ onward 4 count 1 }
{
    round(u16::from(count).wrapping_add(1), 4) as u8
}

fn step_four(last: u8, new: u8) -> u8
    ensures { result ≡ step 4 last new }
{
    step_round(u16::from(last), u16::from(new), 4) as u8
}

// The sequence of digit payloads (Annex A), of 8 bits.
#[derive(Clone, Copy, Debug, PartialEq, Eq)]
pub struct DigitCount(pub u8);

// The sequence of signalling payloads (Annex B), of 7 bits.
#[derive(Clone, Copy, Debug, PartialEq, Eq)]
pub struct SignallingCount(pub u8);

// The sequence of voice and SID payloads (Annexes E to I), of 4 bits.
#[derive(Clone, Copy, Debug, PartialEq, Eq)]
pub struct VoiceCount(pub u8);

// The sequence of data payloads (Annex C), of 13 bits.
#[derive(Clone, Copy, Debug, PartialEq, Eq)]
pub struct DataCount(pub u16);

// The sequence of fax payloads (Annex D), of 4 bits.
#[derive(Clone, Copy, Debug, PartialEq, Eq)]
pub struct FaxCount(pub u8);

impl DigitCount {
    pub fn next(self) -> Self
        ensures { result.0 ≡ onward 8 self.0 1 }
    {
        DigitCount(self.0.wrapping_add(1))
    }

    pub fn step_to(self, new: DigitCount) -> u8
        ensures { result ≡ step 8 self.0 new.0 }
    {
        new.0.wrapping_sub(self.0)
    }
}

impl SignallingCount {
    pub fn next(self) -> Self
        ensures { result.0 ≡ onward 7 self.0 1 }
    {
        SignallingCount(round(u16::from(self.0).wrapping_add(1), 7) as u8)
    }

    pub fn step_to(self, new: SignallingCount) -> u8
        ensures { result ≡ step 7 self.0 new.0 }
    {
        step_round(u16::from(self.0), u16::from(new.0), 7) as u8
    }
}

impl VoiceCount {
    pub fn next(self) -> Self
        ensures { result.0 ≡ onward 4 self.0 1 }
    {
        VoiceCount(next_four(self.0))
    }

    pub fn step_to(self, new: VoiceCount) -> u8
        ensures { result ≡ step 4 self.0 new.0 }
    {
        step_four(self.0, new.0)
    }
}

impl DataCount {
    pub fn next(self) -> Self
        ensures { result.0 ≡ onward 13 self.0 1 }
    {
        DataCount(round(self.0.wrapping_add(1), 13))
    }

    pub fn step_to(self, new: DataCount) -> u16
        ensures { result ≡ step 13 self.0 new.0 }
    {
        step_round(self.0, new.0, 13)
    }
}

impl FaxCount {
    pub fn next(self) -> Self
        ensures { result.0 ≡ onward 4 self.0 1 }
    {
        FaxCount(next_four(self.0))
    }

    pub fn step_to(self, new: FaxCount) -> u8
        ensures { result ≡ step 4 self.0 new.0 }
    {
        step_four(self.0, new.0)
    }
}
