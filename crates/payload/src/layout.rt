// Which layout a payload has, and which type a content is written with (document 01, "Payload types").
ghost use Rattle.std.specs.Prelude.{◌≡◌};
ghost use Rattle.payload.specs.Layout.{family_of, on_voice, on_fax, on_data, layout_of, type_in, type_for};

use record::syntax::{Record, Syntax};
use refusal::Refusal;

// What the syntaxes have in common.
#[derive(Clone, Copy)]
pub enum Family {
    VoiceFamily,
    DataFamily,
    FaxFamily,
}

// The layout of a payload, with what reading it takes.
#[derive(Clone, Copy)]
pub enum Layout {
    OfVoice(Record),
    OfDigits,
    OfSignalling,
    OfFax,
    OfSid(Syntax),
    OfData,
}

// The kinds of content.
#[derive(Clone, Copy)]
pub enum Kind {
    AVoice,
    ADigits,
    ASignalling,
    AFax,
    ASid,
    AData,
}

// What a syntax has in common with others.
pub fn family_of(syntax: Syntax) -> Family
    ensures { result ≡ family_of syntax }
{
    match syntax {
        Syntax::Acelp | Syntax::Pcm | Syntax::G727 | Syntax::G728 | Syntax::G7231 =>
            Family::VoiceFamily,
        Syntax::Data => Family::DataFamily,
        Syntax::Fax => Family::FaxFamily,
    }
}

#[tactic(auto, unfolding(crate::specs::Layout::on_voice))]
fn on_voice(rec: Record, ptype: u8) -> Result<Layout, Refusal>
    ensures { result ≡ on_voice rec ptype }
{
    match ptype {
        0 => Ok(Layout::OfVoice(rec)),
        1 => Ok(Layout::OfDigits),
        2 => Ok(Layout::OfSignalling),
        3 => Ok(Layout::OfFax),
        4 => Ok(Layout::OfSid(rec.syntax)),
        5..=15 => Err(Refusal::TypeNotAllowed),
        _ => Err(Refusal::TypeNotAllowed),
    }
}

#[tactic(auto, unfolding(crate::specs::Layout::on_fax))]
fn on_fax(ptype: u8) -> Result<Layout, Refusal>
    ensures { result ≡ on_fax ptype }
{
    match ptype {
        0 => Ok(Layout::OfFax),
        1 => Ok(Layout::OfDigits),
        2 => Ok(Layout::OfSignalling),
        3..=15 => Err(Refusal::TypeNotAllowed),
        _ => Err(Refusal::TypeNotAllowed),
    }
}

#[tactic(auto, unfolding(crate::specs::Layout::on_data))]
fn on_data(ptype: u8) -> Result<Layout, Refusal>
    ensures { result ≡ on_data ptype }
{
    match ptype {
        0 => Ok(Layout::OfData),
        1..=15 => Err(Refusal::TypeNotAllowed),
        _ => Err(Refusal::TypeNotAllowed),
    }
}

// The layout of a payload of this type on this sub-channel.
pub fn layout_of(found: Option<Record>, ptype: u8) -> Result<Layout, Refusal>
    ensures { result ≡ layout_of found ptype }
{
    let rec = found.ok_or(Refusal::NotProvisioned)?;
    match family_of(rec.syntax) {
        Family::VoiceFamily => on_voice(rec, ptype),
        Family::DataFamily => on_data(ptype),
        Family::FaxFamily => on_fax(ptype),
    }
}

fn type_in(family: Family, kind: Kind) -> Result<u8, Refusal>
    ensures { result ≡ type_in family kind }
{
    match family {
        Family::VoiceFamily => match kind {
            Kind::AVoice => Ok(0),
            Kind::ADigits => Ok(1),
            Kind::ASignalling => Ok(2),
            Kind::AFax => Ok(3),
            Kind::ASid => Ok(4),
            Kind::AData => Err(Refusal::TypeNotAllowed),
        },
        Family::DataFamily => match kind {
            Kind::AData => Ok(0),
            _ => Err(Refusal::TypeNotAllowed),
        },
        Family::FaxFamily => match kind {
            Kind::AFax => Ok(0),
            Kind::ADigits => Ok(1),
            Kind::ASignalling => Ok(2),
            _ => Err(Refusal::TypeNotAllowed),
        },
    }
}

// The type that a content of this kind is written with on this sub-channel.
pub fn type_for(found: Option<Record>, kind: Kind) -> Result<u8, Refusal>
    ensures { result ≡ type_for found kind }
{
    let rec = found.ok_or(Refusal::NotProvisioned)?;
    type_in(family_of(rec.syntax), kind)
}
