// Provisioning texts read into the table.
use crate::fold::{fold, octet};
use crate::items::Works;
use provisioning::text::Refused;

// A text read; of the table two places, or all, are folded.
fn read(acc: u64, text: &[u8], table: &mut [u16; 256], all: bool) -> u64 {
    let said = answer(acc, provisioning::text::read_text(text, table));
    if all {
        return places(said, table);
    }
    place(place(said, table, 5), table, 255)
}

fn answer(acc: u64, answer: Result<usize, Refused>) -> u64 {
    match answer {
        Ok(blocks) => fold(acc, blocks as u64),
        Err(refused) => fold(octet(acc, refused.refusal.number()), refused.line as u64),
    }
}

// The record on a CID as one number, 1 for the least, and 0 for none.
fn place(acc: u64, table: &[u16; 256], cid: u8) -> u64 {
    match record::table::record_of(table, cid) {
        Some(rec) => fold(acc, u64::from(record::table::pack(rec).wrapping_sub(31))),
        None => fold(acc, 0),
    }
}

fn places(acc: u64, table: &[u16; 256]) -> u64 {
    let mut folded = acc;
    for cid in 4..=255 {
        folded = place(folded, table, cid);
    }
    folded
}

// Each item read.
pub fn read_each(items: &[u8], works: Works, table: &mut [u16; 256], all: bool) -> u64 {
    crate::items::each(items, works, |acc, text| read(acc, text, table, all))
}
