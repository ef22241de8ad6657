// A provisioned syntax with its m and seq, and which of them are listed (document 01, "Provisioning text").
ghost use Rattle.std.specs.Prelude.{◌≡◌, ℕ, ◌/◌, ◌%◌, ◌^◌, cond, ◌&&◌, ltb, eqb, Some, None};
ghost use Rattle.record.specs.Record.{m_listed, seq_listed, legal, with_pair, place, syntax_at};

#[derive(Clone, Copy, Debug, PartialEq, Eq)]
pub enum Syntax {
    Acelp,
    Pcm,
    G727,
    G728,
    G7231,
    Data,
    Fax,
}

#[derive(Clone, Copy, Debug, PartialEq, Eq)]
pub struct Record {
    pub syntax: Syntax,
    pub m: u8,
    pub seq: bool,
}

// The m and seq that a syntax may have, as a mask: bit 2 × m + seq + 1, counted from 1, is set where they are listed.
fn pairs(syntax: Syntax) -> u32
    ensures { (n : ℕ) → eqb (result / 2 ^ (n % 32) % 2) 1 ≡ legal (with_pair syntax n) }
{
    match syntax {
        // m 1 to 6, seq 0 or 1
        Syntax::Acelp => 0x3ffc,
        // m 1 to 12, seq 1
        Syntax::Pcm => 0x2aaaaa8,
        Syntax::G727 => 0x2aaaaa8,
        // m 1 to 12, seq 0 or 1
        Syntax::G728 => 0x3fffffc,
        // m 1, seq 0 or 1
        Syntax::G7231 => 0xc,
        // m 1, seq 0
        Syntax::Data => 0x4,
        Syntax::Fax => 0x4,
    }
}

// Whether a syntax may have the m and seq that a number packs in its low five bits.
pub(crate) fn pair_listed(syntax: Syntax, number: u16) -> bool
    ensures { result ≡ legal (with_pair syntax number) }
{
    (pairs(syntax) >> (number % 32)) % 2 == 1
}

// Whether a syntax may have this m, with one seq or the other.
pub fn m_listed(syntax: Syntax, m: u16) -> bool
    ensures { result ≡ m_listed syntax m }
{
    m < 16 && (pair_listed(syntax, m * 2) || pair_listed(syntax, m * 2 + 1))
}

// Whether a syntax may have this seq. Every syntax may have m 1, so the pair of m 1 tells.
pub fn seq_listed(syntax: Syntax, seq: bool) -> bool
    ensures { result ≡ seq_listed syntax seq }
{
    pair_listed(syntax, 2 + u16::from(seq))
}

// The place of a syntax in document 01's list, from 1.
pub fn place_of(syntax: Syntax) -> u16
    ensures { result ≡ place syntax }
{
    match syntax {
        Syntax::Acelp => 1,
        Syntax::Pcm => 2,
        Syntax::G727 => 3,
        Syntax::G728 => 4,
        Syntax::G7231 => 5,
        Syntax::Data => 6,
        Syntax::Fax => 7,
    }
}

// A place from 1 to 7 has its syntax, and no other place has one.
#[tactic(auto, unfolding(crate::specs::Record::syntax_at))]
pub(crate) fn listed_at(at: u16) -> Option<Syntax>
    ensures { result ≡ cond (ltb 0 at && ltb at 8) (Some (syntax_at at)) None }
{
    match at {
        1 => Some(Syntax::Acelp),
        2 => Some(Syntax::Pcm),
        3 => Some(Syntax::G727),
        4 => Some(Syntax::G728),
        5 => Some(Syntax::G7231),
        6 => Some(Syntax::Data),
        7 => Some(Syntax::Fax),
        _ => None,
    }
}

// The syntax at a place from 1 to 7.
#[tactic(auto, unfolding(crate::specs::Record::syntax_at))]
pub fn syntax_at(at: u16) -> Syntax
    ensures { result ≡ syntax_at at }
{
    listed_at(at).unwrap_or(Syntax::Fax)
}
