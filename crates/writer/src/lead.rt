// The header of a sub-frame, written before its payload (document 01, "Frame and sub-frame").
ghost use Rattle.std.specs.Prelude.{◌≡◌, ◌-◌, ◌%◌, length};
ghost use Rattle.octets.specs.Room.{left_by};
ghost use Rattle.joining.specs.Joining.{shortest_header, header_put};

use place::Writer;
use refusal::Refusal;

// Writes the header before a payload of so many octets: where it tells their number, that is at most 255.
pub(crate) fn lead(
    frame: &mut [u8],
    writer: Writer,
    last: bool,
    cid: u8,
    ptype: u8,
    len: usize,
) -> Result<usize, Refusal>
    ensures answer { result ≡ header_put (length frame.old - writer.at) writer.at cid ptype last }
    ensures holds { frame.new ≡ left_by result frame.old writer.at (shortest_header cid ptype last (len % 256)) }
{
    joining::put_header(frame, writer.at, cid, ptype, last, (len % 256) as u8)
}
