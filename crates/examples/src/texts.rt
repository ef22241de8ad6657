// Provisioning texts (document 01, "Provisioning text"): how many blocks are taken, or the refusal and its line. In a case `/` stands
// for LF.
use crate::line;
use octets::text::LF;
use provisioning::text::Refused;

// `text=`: a text.
pub fn text(rt: &impl Print, text: &[u8], table: &mut [u16; 256]) {
    read(rt, text, text.len(), table);
}

// `long=`: three octets of size, and a text behind `:`; zeros fill it to that size.
pub fn long(rt: &impl Print, line: &[u8], table: &mut [u16; 256]) {
    let o = line::octets_of(line);
    let size = three(o[0], octets::double(o[1], o[2]));
    read(rt, line.get(12..).unwrap_or(&[]), size, table);
}

// A number of three octets.
fn three(high: u8, low: u16) -> usize {
    usize::from(high) * 65536 + usize::from(low)
}

fn read(rt: &impl Print, text: &[u8], size: usize, table: &mut [u16; 256]) {
    let mut room = [0u8; 65536];
    let _ = octets::put_octets(&mut room, 0, text);
    put_lines(&mut room);
    match provisioning::text::read_text(room.get(..size).unwrap_or(&[]), table) {
        Ok(blocks) => console::print::number(rt, b"taken ", blocks as u64),
        Err(answer) => refused(rt, answer),
    }
}

fn refused(rt: &impl Print, answer: Refused) {
    let number = answer.refusal.number();
    let _ = print!(rt; "{number}");
    console::print::number(rt, b" line ", answer.line as u64);
}

// Each `/` becomes an LF. Every octet is put, changed or not, so that the compiler does many at once.
fn put_lines(text: &mut [u8]) {
    for character in text.iter_mut() {
        *character = if *character == b'/' { LF } else { *character };
    }
}
