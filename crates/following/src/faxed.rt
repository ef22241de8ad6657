// The lines of a fax payload that the trunk has taken (docs/FOLLOW.md).
ghost use Rattle.std.specs.Prelude.{◌≡◌, ◌+◌, ◌≤◌, length, take};
ghost use Rattle.printing.specs.Room.{Appended};
ghost use Rattle.faxing.specs.declared.Did.TheVariants.{Began};
ghost use Rattle.following.specs.Following.{did_lines, page_line, faxed_lines};

use crate::heard::bit;
use faxing::{Did, Handed};
use printing::field::put_field;
use printing::hex::put_hex_field;
use printing::line::put_line;

fn put_began(
    out: &mut [u8],
    at: usize,
    hdlc: bool,
    modulation: u8,
    frequency: u16,
    stamp: u16,
) -> usize
    requires { at + 126 ≤ length out.old }
    ensures { Appended out.old at (did_lines (Began hdlc modulation frequency stamp)) 126 out.new result }
{
    let past_did = put_line(out, at, b"did=began");
    let past_hdlc = put_field(out, past_did, b"hdlc=", bit(hdlc) as u64);
    let past_modulation = put_field(out, past_hdlc, b"modulation=", modulation as u64);
    let past_frequency = put_field(out, past_modulation, b"frequency=", frequency as u64);
    put_field(out, past_frequency, b"stamp=", stamp as u64)
}

fn put_did(out: &mut [u8], at: usize, did: Did) -> usize
    requires { at + 126 ≤ length out.old }
    ensures { Appended out.old at (did_lines did) 126 out.new result }
{
    match did {
        Did::Nothing => put_line(out, at, b"did=nothing"),
        Did::Began {
            hdlc,
            modulation,
            frequency,
            stamp,
        } => put_began(out, at, hdlc, modulation, frequency, stamp),
        Did::Stopped(stamp) => {
            let past_did = put_line(out, at, b"did=stopped");
            put_field(out, past_did, b"stamp=", stamp as u64)
        }
        Did::Added => put_line(out, at, b"did=added"),
        Did::Ended => put_line(out, at, b"did=ended"),
        Did::Aborted => put_line(out, at, b"did=aborted"),
    }
}

// The first ones of seventy-two octets.
fn put_page(out: &mut [u8], at: usize, count: u8, page: &[u8]) -> usize
    requires page_len { length page.now ≡ 72 }
    requires at_in_bounds { at + 152 ≤ length out.old }
    ensures { Appended out.old at (page_line (take count page.now)) 152 out.new result }
{
    let end = octets::least(octets::wide(count), 72);
    put_hex_field(out, at, b"octets=", &page[..end])
}

pub(crate) fn put_faxed(out: &mut [u8], at: usize, handed: Handed) -> usize
    requires { at + 303 ≤ length out.old }
    ensures { Appended out.old at (faxed_lines handed) 303 out.new result }
{
    let past_gap = put_field(out, at, b"gap=", bit(handed.gap) as u64);
    let past_octets = put_page(out, past_gap, handed.count, &handed.octets);
    put_did(out, past_octets, handed.did)
}
