// Voice and data sub-frames, written (document 01, "Refusal numbers" and "Payload types").
ghost use Rattle.std.specs.Prelude.{◌≡◌, length};
ghost use Rattle.record.specs.Record.{found_at};
ghost use Rattle.payload.specs.Content.{speech, fragment};
ghost use Rattle.writer.specs.Writer.{writing, left_writing};
ghost use Rattle.writer.specs.Answers.{answered};

use crate::content::{Fragment, Speech};
use counts::{DataCount, VoiceCount};
use place::Writer;
use refusal::Refusal;

// Writes a voice sub-frame: the octets of `body` pass through.
pub fn write_voice(
    frame: &mut [u8],
    writer: Writer,
    last: bool,
    table: &[u16; 256],
    cid: u8,
    sequence: VoiceCount,
    coding: u8,
    body: &[u8],
) -> Result<Writer, Refusal>
    ensures answer { result ≡ answered (writing (length frame.old) writer last (found_at table.now cid) cid (speech sequence coding body.now)) }
    ensures holds { frame.new ≡ left_writing (writing (length frame.old) writer last (found_at table.now cid) cid (speech sequence coding body.now)) frame.old writer.at }
{
    let speech = Speech {
        sequence,
        coding,
        body,
    };
    crate::write::write(frame, writer, last, table, cid, &speech)
}

// Writes a data sub-frame: the octets of `body` pass through.
pub fn write_data(
    frame: &mut [u8],
    writer: Writer,
    last: bool,
    table: &[u16; 256],
    cid: u8,
    begins: bool,
    ends: bool,
    sequence: DataCount,
    body: &[u8],
) -> Result<Writer, Refusal>
    ensures answer { result ≡ answered (writing (length frame.old) writer last (found_at table.now cid) cid (fragment begins ends sequence body.now)) }
    ensures holds { frame.new ≡ left_writing (writing (length frame.old) writer last (found_at table.now cid) cid (fragment begins ends sequence body.now)) frame.old writer.at }
{
    let fragment = Fragment {
        begins,
        ends,
        sequence,
        body,
    };
    crate::write::write(frame, writer, last, table, cid, &fragment)
}
