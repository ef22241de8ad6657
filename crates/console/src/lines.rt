// Lines of the input, of which each is answered. They are numbered from 1.
ghost use Rattle.std.specs.Prelude.{◌≤◌, length, IfSome};

use crate::input::Input;
use std::io::Read;

// A line, by how many characters it has, or `None` where the input ended before it; and the input behind it.
#[derive(Clone, Copy)]
pub struct Given {
    pub line: Option<usize>,
    pub input: Input,
}

// The answer to a line that is not well-formed.
pub fn malformed(rt: &impl Print, number: u64) {
    crate::print::number(rt, b"malformed=", number);
}

// Reads a line. One that is longer than the room, or lacks its LF, is not well-formed: it counts as empty, and no key is.
pub fn read(reader: &mut impl Read, block: &mut [u8], text: &mut [u8], input: Input) -> Given
    ensures { IfSome result.line (λ size. size ≤ length text.new) }
{
    let line = crate::input::read_line(reader, block, text, input);
    let given = if line.whole && line.size <= text.len() {
        Some(line.size)
    } else if line.whole || line.size != 0 {
        Some(0)
    } else {
        None
    };
    Given {
        line: given,
        input: line.input,
    }
}
