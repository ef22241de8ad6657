// What is answered to a payload, by its sub-channel's record and its type (document 01, "Payload types").
ghost use Rattle.std.specs.Prelude.{◌≡◌};
ghost use Rattle.payload.specs.Content.{payload_read, checked};

use crate::layout;
use crate::layout::Layout;
use record::syntax::Record;
use refusal::Refusal;

// Whether a payload of this type on this sub-channel reads, or its refusal.
pub fn check_payload(found: Option<Record>, ptype: u8, payload: &[u8]) -> Result<(), Refusal>
    ensures { result ≡ checked (payload_read found ptype payload.now) }
{
    match layout::layout_of(found, ptype)? {
        Layout::OfVoice(rec) => {
            voice::read_voice(rec, payload)?;
        }
        Layout::OfDigits => {
            digits::layout::read_digits(payload)?;
        }
        Layout::OfSignalling => {
            signalling::layout::read_signalling(payload)?;
        }
        Layout::OfFax => {
            fax::read_fax(payload)?;
        }
        Layout::OfSid(syntax) => {
            sid::read_sid(syntax, payload)?;
        }
        Layout::OfData => {
            data::read_data(payload)?;
        }
    }
    Ok(())
}
