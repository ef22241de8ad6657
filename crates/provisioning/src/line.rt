// One line of a provisioning text, by its kind and by what the lines before it told (document 01, "Provisioning text").
ghost use Rattle.std.specs.Prelude.{◌≡◌, ◌&&◌, leb, eqb};
ghost use Rattle.record.specs.Record.{seq_listed};
ghost use Rattle.value.specs.Value.{value_line};
ghost use Rattle.provisioning.specs.Line.{row, start, line_at};

use record::syntax::{Record, Syntax};
use refusal::Refusal;
use value::Value;

// The kinds of lines of a block, in their order.
#[derive(Clone, Copy)]
pub enum Kind {
    OfCid,
    OfSyntax,
    OfM,
    OfSeq,
}

// The kind of the line that is due, and the CID and the record under way, in which each line sets what it tells. Before a cid
// line they are those of the block before.
#[derive(Clone, Copy)]
pub struct State {
    pub kind: Kind,
    pub cid: u8,
    pub made: Record,
}

// A line that is taken: what is due after it, and the octets that it takes with its LF.
#[derive(Clone, Copy)]
pub struct Step {
    pub state: State,
    pub size: usize,
}

// What is due at the start: a block, on a CID above 0. The record under way is acelp with m 1 and seq 0.
pub(crate) fn start() -> State
    ensures { result ≡ start }
{
    State {
        kind: Kind::OfCid,
        cid: 0,
        made: Record {
            syntax: Syntax::Acelp,
            m: 1,
            seq: false,
        },
    }
}

// Whether a line of this kind begins a block.
pub(crate) fn begins(kind: Kind) -> bool
    ensures { result ≡ (row kind).begins }
{
    matches!(kind, Kind::OfCid)
}

// What stands behind the key of this kind.
fn value_of(s: &[u8], kind: Kind) -> Option<Value>
    ensures { result ≡ (row kind).read s.now }
{
    match kind {
        Kind::OfCid => value::number_of(s),
        Kind::OfSyntax => value::word_of(s),
        Kind::OfM => value::number_of(s),
        Kind::OfSeq => value::number_of(s),
    }
}

// A key, and what stands behind it. Always inlined: at each place where it is called the key and the kind are constants.
#[inline(always)]
#[tactic(auto, using(crate::proofs::Lines::keyed), unfolding(value::specs::Value::value_line))]
fn value_line(s: &[u8], key: &[u8], kind: Kind) -> Option<Value>
    ensures { result ≡ value_line key.now (row kind).read s.now }
{
    if !octets::text::starts(s, key) {
        return None;
    }
    let n = key.len();
    let behind = value_of(&s[n..], kind)?;
    Some(Value {
        value: behind.value,
        size: n + behind.size,
    })
}

// The value of the line of this kind that a text starts with.
fn value_at(s: &[u8], kind: Kind) -> Option<Value>
    ensures { result ≡ value_line (row kind).key (row kind).read s.now }
{
    match kind {
        Kind::OfCid => value_line(s, b"cid=", kind),
        Kind::OfSyntax => value_line(s, b"syntax=", kind),
        Kind::OfM => value_line(s, b"m=", kind),
        Kind::OfSeq => value_line(s, b"seq=", kind),
    }
}

// Whether a value is at least `low` and at most `high`.
fn between(low: u16, value: u16, high: u16) -> bool
    ensures { result ≡ (leb low value && leb value high) }
{
    low <= value && value <= high
}

// Whether a syntax may have a value as its seq.
fn bit_listed(syntax: Syntax, value: u16) -> bool
    ensures { result ≡ (leb value 1 && seq_listed syntax (eqb value 1)) }
{
    value <= 1 && record::syntax::seq_listed(syntax, value == 1)
}

// Whether document 01 lists a value of this kind, for the record under way.
fn listed(kind: Kind, made: Record, value: u16) -> bool
    ensures { result ≡ (row kind).listed made value }
{
    match kind {
        Kind::OfCid => between(4, value, 255),
        Kind::OfSyntax => between(1, value, 7),
        Kind::OfM => record::syntax::m_listed(made.syntax, value),
        Kind::OfSeq => bit_listed(made.syntax, value),
    }
}

// Whether a value is a CID that is not above the one before.
fn not_above(kind: Kind, value: u8, before: u8) -> bool
    ensures { result ≡ ((row kind).begins && leb value before) }
{
    begins(kind) && value <= before
}

// What is due after a line with this value.
fn told(state: State, value: u8) -> State
    ensures { result ≡ (row state.kind).told state value }
{
    let made = state.made;
    match state.kind {
        Kind::OfCid => State {
            kind: Kind::OfSyntax,
            cid: value,
            ..state
        },
        Kind::OfSyntax => State {
            kind: Kind::OfM,
            made: Record {
                syntax: record::syntax::syntax_at(u16::from(value)),
                ..made
            },
            ..state
        },
        Kind::OfM => State {
            kind: Kind::OfSeq,
            made: Record { m: value, ..made },
            ..state
        },
        Kind::OfSeq => State {
            kind: Kind::OfCid,
            made: Record {
                seq: value == 1,
                ..made
            },
            ..state
        },
    }
}

// The line that a text starts with.
#[tactic(auto, unfolding(crate::specs::Line::line_by))]
pub(crate) fn line_at(s: &[u8], state: State) -> Result<Step, Refusal>
    ensures { result ≡ line_at state s.now }
{
    let line = value_at(s, state.kind).ok_or(Refusal::LineMalformed)?;
    if !listed(state.kind, state.made, line.value) {
        return Err(Refusal::ValueNotListed);
    }
    let octet = line.value as u8;
    if not_above(state.kind, octet, state.cid) {
        return Err(Refusal::CidNotRising);
    }
    Ok(Step {
        state: told(state, octet),
        size: line.size,
    })
}
