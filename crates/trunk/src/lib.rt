// One sub-channel at the far end (document 01, "Payload types" and "Receivers"; document 02, wishes 1 and 3). Its payloads, each with
// its type, go to the receivers that their layouts name, by what is provisioned on the sub-channel. 11 to 16 come from here, 19 of
// digits and signalling, and 41 and 42 of fax: no caller is expected to have looked first.
#![tactic(auto)]

ghost use Rattle.std.specs.Prelude.{◌≡◌};
ghost use Rattle.trunk.specs.Trunk.{fresh_trunk, taken};

use payload::layout::Layout;
use record::syntax::Record;
use refusal::Refusal;

// All receiving state of one sub-channel.
#[derive(Clone, Copy)]
pub struct Trunk {
    pub digits: dialled::Receiver,
    pub signalling: seized::Receiver,
    pub fax: faxing::Receiver,
}

// What was heard, with what the digit or the signalling receiver appended, or the fax replay handed on.
#[derive(Clone, Copy)]
pub enum Heard {
    HeardVoice,
    HeardSilence,
    HeardDigits(dialled::Appended),
    HeardSignalling(seized::Appended),
    HeardData,
    HeardFax(faxing::Handed),
}

impl Trunk {
    // A trunk that has heard nothing yet.
    pub fn fresh() -> Trunk
        ensures { result ≡ fresh_trunk }
    {
        Trunk {
            digits: dialled::Receiver::fresh(),
            signalling: seized::Receiver::fresh(),
            fax: faxing::Receiver::fresh(),
        }
    }

    // Takes a payload of a type, by what is provisioned on the sub-channel. A refused one leaves the trunk as it was.
    #[tactic(auto, using(crate::proofs::Cases::dialled_stands, crate::proofs::Cases::seized_stands, crate::proofs::Cases::fax_stands), unfolding(crate::specs::Trunk::taken))]
    pub fn take(
        &mut self,
        found: Option<Record>,
        ptype: u8,
        payload: &[u8],
    ) -> Result<Heard, Refusal>
        ensures answer { result ≡ (taken self.old found ptype payload.now).answer }
        ensures after { self.new ≡ (taken self.old found ptype payload.now).trunk }
    {
        match payload::layout::layout_of(found, ptype)? {
            Layout::OfVoice(rec) => {
                voice::read_voice(rec, payload)?;
                self.digits.hear_voice();
                Ok(Heard::HeardVoice)
            }
            Layout::OfDigits => Ok(Heard::HeardDigits(self.digits.receive(payload)?)),
            Layout::OfSignalling => Ok(Heard::HeardSignalling(self.signalling.receive(payload)?)),
            Layout::OfFax => Ok(Heard::HeardFax(self.fax.receive(payload)?)),
            Layout::OfSid(syntax) => {
                sid::read_sid(syntax, payload)?;
                Ok(Heard::HeardSilence)
            }
            Layout::OfData => {
                data::read_data(payload)?;
                Ok(Heard::HeardData)
            }
        }
    }
}
