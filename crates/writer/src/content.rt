// What the writer asks of a content: its kind, how it fits a sub-channel, and how its payload is put (document 01, "Payload types").
ghost use Rattle.std.specs.Prelude.{◌≡◌};
ghost use Rattle.octets.specs.Made.{fit_of, left_made};
ghost use Rattle.payload.specs.Content as content;

use counts::{DataCount, VoiceCount};
use digits::layout::Digits;
use fax::Command;
use payload::layout::Kind;
use record::syntax::Record;
use refusal::Refusal;
use sid::Sid;
use signalling::layout::Signalling;

pub(crate) trait Content {
    // What it says.
    ghost says: { Self → content.Content };

    fn kind(&self) -> Kind
        ensures { result ≡ content.kind_of (says self.now) };

    // The octets of its payload, or the refusal.
    fn fit(&self, rec: Record) -> Result<usize, Refusal>
        ensures { result ≡ fit_of (content.made_on rec (says self.now)) };

    // Puts its payload at a place of a frame, where it fits.
    fn put(&self, frame: &mut [u8], at: usize, rec: Record)
        ensures { frame.new ≡ left_made frame.old at (content.made_on rec (says self.now)) };
}

// Speech: the octets of `body` pass through.
#[derive(Clone, Copy)]
pub(crate) struct Speech<'a> {
    pub sequence: VoiceCount,
    pub coding: u8,
    pub body: &'a [u8],
}

impl<'a> Content for Speech<'a> {
    ghost says = { λ s. content.speech s.sequence s.coding s.body.now };

    fn kind(&self) -> Kind {
        Kind::AVoice
    }

    fn fit(&self, rec: Record) -> Result<usize, Refusal> {
        voice::fit_voice(rec, self.sequence, self.coding, self.body)
    }

    fn put(&self, frame: &mut [u8], at: usize, rec: Record) {
        let _ = voice::put_voice(frame, at, rec, self.sequence, self.coding, self.body);
    }
}

// A data fragment: the octets of `body` pass through.
#[derive(Clone, Copy)]
pub(crate) struct Fragment<'a> {
    pub begins: bool,
    pub ends: bool,
    pub sequence: DataCount,
    pub body: &'a [u8],
}

impl<'a> Content for Fragment<'a> {
    ghost says = { λ s. content.fragment s.begins s.ends s.sequence s.body.now };

    fn kind(&self) -> Kind {
        Kind::AData
    }

    fn fit(&self, _rec: Record) -> Result<usize, Refusal> {
        data::fit_data(self.sequence, self.body)
    }

    fn put(&self, frame: &mut [u8], at: usize, _rec: Record) {
        let _ = data::put_data(frame, at, self.begins, self.ends, self.sequence, self.body);
    }
}

// Fax: the octets of `body` pass through.
#[derive(Clone, Copy)]
pub(crate) struct Relay<'a> {
    pub sequence: u8,
    pub stamp: Option<u16>,
    pub command: Command,
    pub body: &'a [u8],
}

impl<'a> Content for Relay<'a> {
    ghost says = { λ s. content.faxed s.sequence s.stamp s.command s.body.now };

    fn kind(&self) -> Kind {
        Kind::AFax
    }

    fn fit(&self, _rec: Record) -> Result<usize, Refusal> {
        fax::fit_fax(self.sequence, self.stamp, self.command, self.body)
    }

    fn put(&self, frame: &mut [u8], at: usize, _rec: Record) {
        let _ = fax::put_fax(
            frame,
            at,
            self.sequence,
            self.stamp,
            self.command,
            self.body,
        );
    }
}

impl Content for Digits {
    ghost says = { content.dialled };

    fn kind(&self) -> Kind {
        Kind::ADigits
    }

    fn fit(&self, _rec: Record) -> Result<usize, Refusal> {
        digits::layout::fit_digits(*self)
    }

    fn put(&self, frame: &mut [u8], at: usize, _rec: Record) {
        let _ = digits::layout::put_digits(frame, at, *self);
    }
}

impl Content for Signalling {
    ghost says = { content.seized };

    fn kind(&self) -> Kind {
        Kind::ASignalling
    }

    fn fit(&self, _rec: Record) -> Result<usize, Refusal> {
        signalling::layout::fit_signalling(*self)
    }

    fn put(&self, frame: &mut [u8], at: usize, _rec: Record) {
        let _ = signalling::layout::put_signalling(frame, at, *self);
    }
}

impl Content for Sid {
    ghost says = { content.silent };

    fn kind(&self) -> Kind {
        Kind::ASid
    }

    fn fit(&self, rec: Record) -> Result<usize, Refusal> {
        sid::fit_sid(rec.syntax, *self)
    }

    fn put(&self, frame: &mut [u8], at: usize, rec: Record) {
        let _ = sid::put_sid(frame, at, rec.syntax, *self);
    }
}
