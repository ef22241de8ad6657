// What the voice card is handed for a call (document 01, "Frame and sub-frame", its last paragraph).
ghost use Rattle.std.specs.Prelude.{◌≡◌, cond, ◌-◌, ◌≤◌, length, Some, None, Err};
ghost use Rattle.header.specs.Header.{end_of};
ghost use Rattle.frame.specs.Opening.{most_sub_frames, stopped, scan, opening};
ghost use Rattle.payload.specs.declared.layout.Family.TheVariants.{VoiceFamily};
ghost use Rattle.payload.specs.Layout.{family_of};
ghost use Rattle.card.specs.Handing.{serves, handed, octets_of, place_of, source_of};
ghost use Rattle.card.specs.Private.{own_first, first_in, behind};

use header::SubFrame;
use payload::layout::Family;
use record::syntax::Record;
use refusal::Refusal;

// What `source` holds: 0 for a part of the frame, 255 for the silence block (no refusal has it), else the refusal number.
pub const FROM_FRAME: u8 = refusal::SOUND;

pub const FROM_SILENCE: u8 = 255;

// What is handed: a part of the frame, or the silence block.
#[derive(Clone, Copy, Debug, PartialEq, Eq)]
pub enum Handed {
    FromFrame { start: usize, len: usize },
    FromSilence,
}

// Whether a sub-frame is a type 0 payload on the sub-channel, whose voice record this is, that passes its checks.
#[tactic(auto, unfolding(crate::specs::Handing::serves), using(crate::proofs::HandingCases::by_voice))]
fn serves(frame: &[u8], rec: Record, cid: u8, sub: SubFrame) -> bool
    requires sub_in_bounds { end_of sub ≤ length frame.now }
    requires syntax_value { family_of rec.syntax ≡ VoiceFamily }
    ensures { result ≡ serves (Some rec) cid frame.now sub }
{
    sub.cid == cid
        && sub.ptype == 0
        && voice::read_voice(rec, &frame[sub.start..sub.start + sub.len]).is_ok()
}

// A payload that serves, the last of `begun` sub-frames: it is handed where the headers behind it are sound too.
fn behind(frame: &[u8], sub: SubFrame, begun: usize) -> Result<Handed, Refusal>
    requires { end_of sub ≤ length frame.now }
    ensures { result ≡ behind sub (cond sub.last (stopped None (end_of sub)) (scan (most_sub_frames - begun) frame.now (end_of sub))) }
{
    let start = sub.start;
    let len = sub.len;
    if !sub.last {
        frame::scan_from(frame, start + len, begun).map_err(|refused| refused.refusal)?;
    }
    Ok(Handed::FromFrame { start, len })
}

// The first payload of a frame that serves or, where there is none, silence; a refusal of its headers comes first.
#[tactic(auto, using(crate::proofs::HandingCases::within, crate::proofs::HandingCases::hit, crate::proofs::HandingCases::none, crate::proofs::HandingCases::turn, crate::proofs::HandingCases::past, crate::proofs::HandingCases::full))]
fn first_of(frame: &[u8], rec: Record, cid: u8) -> Result<Handed, Refusal>
    requires { family_of rec.syntax ≡ VoiceFamily }
    ensures { result ≡ first_in (Some rec) cid frame.now (scan most_sub_frames frame.now 0) }
{
    let mut at: usize = 0;
    for before in 0..frame::MOST_SUB_FRAMES {
        let Some(sub) = header::header_at(frame, at)? else {
            return Ok(Handed::FromSilence);
        };
        if serves(frame, rec, cid, sub) {
            return behind(frame, sub, before + 1);
        }
        if sub.last {
            return Ok(Handed::FromSilence);
        }
        at = sub.start + sub.len;
    }
    Err(Refusal::TooManySubFrames)
}

// What is handed of a frame on a sub-channel with this voice record.
#[tactic(auto, using(crate::proofs::HandingCases::empty_first, crate::proofs::HandingCases::unfit_first, crate::proofs::HandingCases::fits))]
fn on_voice(frame: &[u8], rec: Record, cid: u8) -> Result<Handed, Refusal>
    requires { family_of rec.syntax ≡ VoiceFamily }
    ensures { result ≡ first_in (Some rec) cid frame.now (opening frame.now) }
{
    if frame.is_empty() {
        return Err(Refusal::FieldEmpty);
    }
    if !frame::field_fits(frame) {
        return Err(Refusal::FieldTooLong);
    }
    first_of(frame, rec, cid)
}

// Of a sub-channel without a voice record: the frame's own refusal, or this one.
fn refused(frame: &[u8], refusal: Refusal) -> Result<Handed, Refusal>
    ensures { result ≡ own_first (opening frame.now) (Err refusal) }
{
    frame::check(frame).map_err(|refused| refused.refusal)?;
    Err(refusal)
}

// What is handed for a call on a sub-channel, from this frame.
#[tactic(auto, using(crate::proofs::HandingCases::unprovisioned, crate::proofs::HandingCases::for_voice, crate::proofs::HandingCases::for_data, crate::proofs::HandingCases::for_fax))]
pub fn find(frame: &[u8], table: &[u16; 256], cid: u8) -> Result<Handed, Refusal>
    ensures { result ≡ handed frame.now table.now cid }
{
    let Some(rec) = record::table::record_of(table, cid) else {
        return refused(frame, Refusal::NotProvisioned);
    };
    // Data and fax stay two arms: with one for both, LLVM builds a jump table, and the card is slower.
    match payload::layout::family_of(rec.syntax) {
        Family::VoiceFamily => on_voice(frame, rec, cid),
        Family::DataFamily => refused(frame, Refusal::TypeNotAllowed),
        Family::FaxFamily => refused(frame, Refusal::TypeNotAllowed),
    }
}

// Hands the voice card the payload, a part of the frame; the silence block, whole; or an empty part of the frame. `source` says
// which.
#[tactic(auto, using(crate::proofs::HandingCases::handed_within))]
pub fn hand<'a>(
    frame: &'a [u8],
    silence: &'a [u8],
    table: &[u16; 256],
    cid: u8,
    source: &mut u8,
) -> &'a [u8]
    ensures octets { result.now ≡ octets_of frame.now silence.now (handed frame.now table.now cid) }
    ensures place { result.ref_ptr ≡ place_of frame.entry.ref_ptr silence.entry.ref_ptr (handed frame.now table.now cid) }
    ensures says { source.new ≡ source_of (handed frame.now table.now cid) }
{
    match find(frame, table, cid) {
        Ok(Handed::FromFrame { start, len }) => {
            let end = start + len;
            *source = FROM_FRAME;
            &frame[start..end]
        }
        Ok(Handed::FromSilence) => {
            *source = FROM_SILENCE;
            silence
        }
        Err(refusal) => {
            *source = refusal.number();
            &frame[0..0]
        }
    }
}
