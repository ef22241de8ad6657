// Sub-frames of digits, signalling, fax and silence, written (document 01, "Refusal numbers" and "Payload types").
ghost use Rattle.std.specs.Prelude.{◌≡◌, length};
ghost use Rattle.record.specs.Record.{found_at};
ghost use Rattle.payload.specs.Content.{dialled, seized, faxed, silent};
ghost use Rattle.writer.specs.Writer.{writing, left_writing};
ghost use Rattle.writer.specs.Answers.{answered};

use crate::content::Relay;
use digits::layout::Digits;
use fax::Command;
use place::Writer;
use refusal::Refusal;
use sid::Sid;
use signalling::layout::Signalling;

// Writes a sub-frame of dialled digits.
pub fn write_digits(
    frame: &mut [u8],
    writer: Writer,
    last: bool,
    table: &[u16; 256],
    cid: u8,
    digits: Digits,
) -> Result<Writer, Refusal>
    ensures answer { result ≡ answered (writing (length frame.old) writer last (found_at table.now cid) cid (dialled digits)) }
    ensures holds { frame.new ≡ left_writing (writing (length frame.old) writer last (found_at table.now cid) cid (dialled digits)) frame.old writer.at }
{
    crate::write::write(frame, writer, last, table, cid, &digits)
}

// Writes a sub-frame of seizure bits.
pub fn write_signalling(
    frame: &mut [u8],
    writer: Writer,
    last: bool,
    table: &[u16; 256],
    cid: u8,
    signalling: Signalling,
) -> Result<Writer, Refusal>
    ensures answer { result ≡ answered (writing (length frame.old) writer last (found_at table.now cid) cid (seized signalling)) }
    ensures holds { frame.new ≡ left_writing (writing (length frame.old) writer last (found_at table.now cid) cid (seized signalling)) frame.old writer.at }
{
    crate::write::write(frame, writer, last, table, cid, &signalling)
}

// Writes a fax sub-frame: the octets of `body` pass through.
pub fn write_fax(
    frame: &mut [u8],
    writer: Writer,
    last: bool,
    table: &[u16; 256],
    cid: u8,
    sequence: u8,
    stamp: Option<u16>,
    command: Command,
    body: &[u8],
) -> Result<Writer, Refusal>
    ensures answer { result ≡ answered (writing (length frame.old) writer last (found_at table.now cid) cid (faxed sequence stamp command body.now)) }
    ensures holds { frame.new ≡ left_writing (writing (length frame.old) writer last (found_at table.now cid) cid (faxed sequence stamp command body.now)) frame.old writer.at }
{
    let relay = Relay {
        sequence,
        stamp,
        command,
        body,
    };
    crate::write::write(frame, writer, last, table, cid, &relay)
}

// Writes a silence sub-frame.
pub fn write_sid(
    frame: &mut [u8],
    writer: Writer,
    last: bool,
    table: &[u16; 256],
    cid: u8,
    sid: Sid,
) -> Result<Writer, Refusal>
    ensures answer { result ≡ answered (writing (length frame.old) writer last (found_at table.now cid) cid (silent sid)) }
    ensures holds { frame.new ≡ left_writing (writing (length frame.old) writer last (found_at table.now cid) cid (silent sid)) frame.old writer.at }
{
    crate::write::write(frame, writer, last, table, cid, &sid)
}
