// Octets put one behind the other into lent room.
ghost use Rattle.std.specs.Prelude.{[], ◌∷◌, ◌+◌, ◌≤◌, length};
ghost use Rattle.printing.specs.Room.{Appended};

// Puts an octet into room at a place, and answers the place after it.
pub(crate) fn put_octet(out: &mut [u8], at: usize, octet: u8) -> usize
    requires { at + 1 ≤ length out.old }
    ensures { Appended out.old at (octet ∷ []) 1 out.new result }
{
    out[at] = octet;
    at + 1
}

// The same with a text.
pub(crate) fn put_text(out: &mut [u8], at: usize, text: &[u8]) -> usize
    requires { at + length text.now ≤ length out.old }
    ensures { Appended out.old at text.now (length text.now) out.new result }
{
    let mut next = at;
    // Stays a loop: with `copy_from_slice` the fields of a listing take more instructions.
    for octet in text {
        next = put_octet(out, next, *octet);
    }
    next
}
