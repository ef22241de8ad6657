// The key of a line.
ghost use Rattle.std.specs.Prelude.{◌≡◌, ◌==◌, position};
ghost use Rattle.console.specs.Key.{key_size};

// Where the first `=` of a text stands.
fn equals_at(text: &[u8]) -> Option<usize>
    ensures { result ≡ position (λ c. c == 61) text.now }
{
    text.iter().position(|c| *c == b'=')
}

// How many characters a text has up to its first `=`, with that; all, where it has none.
#[tactic(auto, using(crate::proofs::Keys::ends))]
pub fn size(text: &[u8]) -> usize
    ensures { result ≡ key_size text.now }
{
    match equals_at(text) {
        Some(at) => at + 1,
        None => text.len(),
    }
}
