// The provisioning table: a number for each CID, which packs the record of a provisioned one.
ghost use Rattle.std.specs.Prelude.{◌≡◌};
ghost use Rattle.record.specs.Record.{packed, meaning, found_at};

use crate::syntax;
use crate::syntax::Record;

// A record as a number of the table. That of a legal one has its syntax above bit 5, m in bits 5 to 2 and seq in bit 1.
#[tactic(auto, unfolding(crate::specs::Record::packed))]
pub fn pack(given: Record) -> u16
    ensures { result ≡ packed given }
{
    syntax::place_of(given.syntax) * 32 + u16::from(given.m) * 2 + u16::from(given.seq)
}

// What a number of the table means: every number has a meaning.
pub(crate) fn meaning(number: u16) -> Option<Record>
    ensures { result ≡ meaning number }
{
    let syntax = syntax::listed_at(number / 32)?;
    let m = (number / 2 % 16) as u8;
    let seq = number % 2 == 1;
    syntax::pair_listed(syntax, number).then_some(Record { syntax, m, seq })
}

// What is provisioned on a CID; nothing is on 0 to 3, whatever the table holds there.
#[tactic(auto, unfolding(crate::specs::Record::found_at))]
pub fn record_of(table: &[u16; 256], cid: u8) -> Option<Record>
    ensures { result ≡ found_at table.now cid }
{
    if cid < 4 {
        return None;
    }
    meaning(table[usize::from(cid)])
}
