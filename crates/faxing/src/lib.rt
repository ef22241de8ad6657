// The fax replay: what each fax payload of a sub-channel brings about (document 02, wish 1; FRF.11, Annex D).
#![tactic(auto)]

ghost use Rattle.std.specs.Prelude.{◌≡◌, true, ◌-◌, ◌≤◌, length, get_or, Ok};
ghost use Rattle.replay.specs.Rule.{carried_count};
ghost use Rattle.fax.specs.declared.Command.TheVariants.{EndOfFrame};
ghost use Rattle.fax.specs.Fax.{body_sized};
ghost use Rattle.faxing.specs.Replay.{fresh_receiver, is_on, under_hdlc, page_sizes, data_size, repeats, idle, step_from, add_count, gap_at, handed_on, did_by, taken_in_force, receiver_after, nothing_handed, acting, taken_by, received};
ghost use Rattle.faxing.specs.Private.{refusal_of};

use counts::FaxCount;
use fax::{Command, Fax};
use refusal::Refusal;

// The octets of a T.4 payload by the modulation in force; none under a single tone or V.21.
const PAGE_SIZES: [u8; 12] = [0, 0, 12, 24, 36, 48, 60, 72, 36, 48, 60, 72];

// The modulation in force, with HDLC or without; and of the payload taken just before the command's code, the number and the stamp.
#[derive(Clone, Copy)]
pub struct InForce {
    pub hdlc: bool,
    pub modulation: u8,
    pub code: u8,
    pub last: FaxCount,
    pub stamp: Option<u16>,
}

// A replay: no modulation is on, or one is.
#[derive(Clone, Copy)]
pub struct Receiver(pub Option<InForce>);

// What a payload did: nothing, where it repeats a command or is an off with none on; else what its command says, modulation-on,
// modulation-off, data (which may add no octet), end-of-frame, abort. Stamps are in milliseconds.
#[derive(Clone, Copy)]
pub enum Did {
    Nothing,
    Began {
        hdlc: bool,
        modulation: u8,
        frequency: u16,
        stamp: u16,
    },
    Stopped(u16),
    Added,
    Ended,
    Aborted,
}

// What a payload brings about, to be handed on in this order: whether octets are missing before these; how many octets, and these,
// oldest first from place 0, then 0; what it did.
#[derive(Clone, Copy)]
pub struct Handed {
    pub gap: bool,
    pub count: u8,
    pub octets: [u8; 72],
    pub did: Did,
}

fn page_size(modulation: u8) -> usize
    ensures { result ≡ get_or page_sizes modulation 0 }
{
    match PAGE_SIZES.get(modulation as usize) {
        Some(size) => octets::wide(*size),
        None => 0,
    }
}

// How many octets an end-of-frame or abort adds: one fewer than its step, at most three.
fn end_count(step: u8) -> usize
    ensures { result ≡ carried_count (step - 1) }
{
    octets::wide(replay::carried_count(step.saturating_sub(1)))
}

// How many of its data octets a payload adds, by its step.
fn add_count(hdlc: bool, command: Command, step: u8, size: usize) -> usize
    ensures { result ≡ add_count hdlc command step size }
{
    match command {
        Command::Off | Command::On { .. } => 0,
        Command::Page => {
            if hdlc {
                return octets::wide(replay::carried_count(step));
            }
            if step == 0 { 0 } else { size }
        }
        Command::EndOfFrame | Command::Abort => end_count(step),
    }
}

// Whether octets are missing before those of a payload, by its step.
fn gap_at(hdlc: bool, command: Command, step: u8) -> bool
    ensures { result ≡ gap_at hdlc command step }
{
    match command {
        Command::Off => 1 < step,
        Command::On { .. } => false,
        Command::Page => if hdlc { 3 < step } else { 1 < step },
        Command::EndOfFrame | Command::Abort => 4 < step,
    }
}

// The newest octets of a body, which has the newest first: oldest first from place 0, then 0.
#[tactic(auto, using(crate::proofs::Places::one_more))]
fn handed_on(body: &[u8], count: usize) -> [u8; 72]
    requires { (count ≤ length body.now) × (count ≤ 72) }
    ensures { result ≡ handed_on count body.now }
{
    let mut octets = [0u8; 72];
    // Mostly one to three: a loop takes less time than moving and turning round.
    for i in 0..count {
        octets[i] = body[count - 1 - i];
    }
    octets
}

fn did_by(command: Command, stamp: Option<u16>) -> Did
    ensures { result ≡ did_by command stamp }
{
    match command {
        Command::Off => Did::Stopped(fax::stamp_number(stamp)),
        Command::On {
            hdlc,
            modulation,
            frequency,
        } => Did::Began {
            hdlc,
            modulation,
            frequency,
            stamp: fax::stamp_number(stamp),
        },
        Command::Page => Did::Added,
        Command::EndOfFrame => Did::Ended,
        Command::Abort => Did::Aborted,
    }
}

// A repeat, or an off with none on.
fn nothing_handed() -> Handed
    ensures { result ≡ nothing_handed }
{
    Handed {
        gap: false,
        count: 0,
        octets: [0u8; 72],
        did: Did::Nothing,
    }
}

impl Receiver {
    // The replay before the first payload.
    pub fn fresh() -> Receiver
        ensures { result ≡ fresh_receiver }
    {
        Receiver(None)
    }

    fn is_on(self) -> bool
        ensures { result ≡ is_on self }
    {
        self.0.is_some()
    }

    fn under_hdlc(self) -> bool
        ensures { result ≡ under_hdlc self }
    {
        self.0.is_some_and(|on| on.hdlc)
    }

    // The data octets that the modulation in force asks.
    fn data_size(self) -> usize
        ensures { result ≡ data_size self }
    {
        match self.0 {
            None => 0,
            Some(on) => if on.hdlc { 3 } else { page_size(on.modulation) },
        }
    }

    // 41, then 42, of an end-of-frame or abort.
    fn end_refusal(self) -> Result<(), Refusal>
        ensures { result ≡ refusal_of self EndOfFrame 3 }
    {
        if !self.is_on() {
            return Err(Refusal::NoModulation);
        }
        if !self.under_hdlc() {
            return Err(Refusal::AgainstModulation);
        }
        Ok(())
    }

    // 41, then 42, of a payload with so many data octets.
    fn refusal_of(self, command: Command, size: usize) -> Result<(), Refusal>
        ensures { result ≡ refusal_of self command size }
    {
        match command {
            Command::Off | Command::On { .. } => Ok(()),
            Command::Page => {
                if !self.is_on() {
                    return Err(Refusal::NoModulation);
                }
                if size != self.data_size() {
                    return Err(Refusal::AgainstModulation);
                }
                Ok(())
            }
            Command::EndOfFrame | Command::Abort => self.end_refusal(),
        }
    }

    // Whether a payload is the same command, number and stamp as the one taken just before. Data is no repeat.
    fn repeats(self, command: Command, number: u8, stamp: Option<u16>) -> bool
        ensures { result ≡ repeats self command number stamp }
    {
        match self.0 {
            None => false,
            Some(on) => {
                let code = fax::code_of(command);
                code != 2 && on.code == code && on.last.0 == number && on.stamp == stamp
            }
        }
    }

    // An off with none on.
    fn idle(self, command: Command) -> bool
        ensures { result ≡ idle self command }
    {
        fax::code_of(command) == 0 && !self.is_on()
    }

    // The step from the payload taken just before.
    fn step_from(self, number: u8) -> u8
        ensures { result ≡ step_from self number }
    {
        match self.0 {
            None => 0,
            Some(on) => on.last.step_to(FaxCount(number)),
        }
    }

    // The modulation stays in force, and this payload is then the one taken just before.
    fn taken_in_force(&mut self, code: u8, number: u8, stamp: Option<u16>)
        ensures { self.new ≡ taken_in_force self.old code number stamp }
    {
        if let Some(on) = &mut self.0 {
            on.code = code;
            on.last = FaxCount(number);
            on.stamp = stamp;
        }
    }

    fn receiver_after(&mut self, command: Command, number: u8, stamp: Option<u16>)
        ensures { self.new ≡ receiver_after self.old command number stamp }
    {
        let code = fax::code_of(command);
        match command {
            Command::Off => self.0 = None,
            Command::On {
                hdlc,
                modulation,
                ..
            } => {
                self.0 = Some(InForce {
                    hdlc,
                    modulation,
                    code,
                    last: FaxCount(number),
                    stamp,
                });
            }
            Command::Page | Command::EndOfFrame | Command::Abort => {
                self.taken_in_force(code, number, stamp);
            }
        }
    }

    // A payload that is taken.
    #[tactic(auto, using(crate::proofs::Places::add_fits), unfolding(crate::specs::Replay::acting))]
    fn act(&mut self, fax: Fax, body: &[u8]) -> Handed
        requires { body_sized fax.command (length body.now) ≡ true }
        ensures answer { Ok result ≡ (acting self.old fax.sequence fax.stamp fax.command body.now (step_from self.old fax.sequence)).answer }
        ensures after { self.new ≡ (acting self.old fax.sequence fax.stamp fax.command body.now (step_from self.old fax.sequence)).receiver }
    {
        let hdlc = self.under_hdlc();
        let step = self.step_from(fax.sequence);
        let count = add_count(hdlc, fax.command, step, body.len());
        self.receiver_after(fax.command, fax.sequence, fax.stamp);
        Handed {
            gap: gap_at(hdlc, fax.command, step),
            count: count as u8,
            octets: handed_on(body, count),
            did: did_by(fax.command, fax.stamp),
        }
    }

    // A payload that is read, with its data octets.
    #[tactic(auto, unfolding(crate::specs::Replay::taken_by))]
    fn take(&mut self, fax: Fax, body: &[u8]) -> Result<Handed, Refusal>
        requires { body_sized fax.command (length body.now) ≡ true }
        ensures answer { result ≡ (taken_by self.old fax.sequence fax.stamp fax.command body.now).answer }
        ensures after { self.new ≡ (taken_by self.old fax.sequence fax.stamp fax.command body.now).receiver }
    {
        self.refusal_of(fax.command, body.len())?;
        if self.repeats(fax.command, fax.sequence, fax.stamp) || self.idle(fax.command) {
            return Ok(nothing_handed());
        }
        Ok(self.act(fax, body))
    }

    // Takes a fax payload. A refused one leaves the replay as it was.
    #[tactic(auto, using(crate::proofs::Taken::whole, crate::proofs::Taken::sized), unfolding(crate::specs::Replay::received))]
    pub fn receive(&mut self, payload: &[u8]) -> Result<Handed, Refusal>
        ensures answer { result ≡ (received self.old payload.now).answer }
        ensures after { self.new ≡ (received self.old payload.now).receiver }
    {
        let fax = fax::read_fax(payload)?;
        self.take(fax, &payload[fax.front..])
    }
}
