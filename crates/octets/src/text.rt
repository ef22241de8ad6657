// Octets as text: the word that a text starts with, and the end of a line.
ghost use Rattle.std.specs.Prelude.{◌≡◌};
ghost use Rattle.octets.specs.Text.{starts, has_lf};

// The octet that ends a line.
pub const LF: u8 = 10;

// Whether a text starts with a word.
pub fn starts(s: &[u8], with: &[u8]) -> bool
    ensures { result ≡ starts s.now with.now }
{
    s.starts_with(with)
}

// Whether an LF comes.
pub fn has_lf(s: &[u8]) -> bool
    ensures { result ≡ has_lf s.now }
{
    s.contains(&LF)
}
