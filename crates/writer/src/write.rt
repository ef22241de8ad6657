// Writing a sub-frame, once for every kind of content (document 01, "Refusal numbers").
ghost use Rattle.std.specs.Prelude.{◌≡◌, length};
ghost use Rattle.record.specs.Record.{found_at};
ghost use Rattle.writer.specs.Writer.{writing, left_writing};
ghost use Rattle.writer.specs.Answers.{answered};

use crate::content::Content;
use place::Writer;
use refusal::Refusal;

// Writes a sub-frame. Where it is refused, the lent frame is as it was.
pub(crate) fn write<C: Content>(
    frame: &mut [u8],
    writer: Writer,
    last: bool,
    table: &[u16; 256],
    cid: u8,
    content: &C,
) -> Result<Writer, Refusal>
    ensures answer { result ≡ answered (writing (length frame.old) writer last (found_at table.now cid) cid (C.says content.now)) }
    ensures holds { frame.new ≡ left_writing (writing (length frame.old) writer last (found_at table.now cid) cid (C.says content.now)) frame.old writer.at }
{
    let channel = place::channel_for(writer, table, cid, content.kind())?;
    let fit = content.fit(channel.rec);
    let entered = place::enter(frame.len(), writer, last, cid, channel.ptype, fit)?;
    let place = entered?;
    // The room for both was looked at.
    content.put(frame, place.start, channel.rec);
    let _ = crate::lead::lead(frame, writer, last, cid, channel.ptype, place.len);
    Ok(place.next)
}
