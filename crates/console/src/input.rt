// Input, line by line.
ghost use Rattle.std.specs.Prelude.{◌≡◌, false, take, set};
ghost use Rattle.octets.specs.Text.{has_lf};

use octets::text::LF;
use std::io::Read;

// How much of the block that was read last is taken, and how much it has.
#[derive(Clone, Copy)]
pub struct Input {
    pub taken: usize,
    pub have: usize,
}

// The next character, none where the input has ended; and the input behind it.
#[derive(Clone, Copy)]
struct Next {
    character: Option<u8>,
    input: Input,
}

// A line: how many characters it has before its end, of which the room has as many as it takes; and whether an LF ends it.
#[derive(Clone, Copy)]
pub struct Line {
    pub size: usize,
    pub whole: bool,
    pub input: Input,
}

// Takes a character, from a new block when the last one is used up. A read that fails ends the input.
fn next_character(reader: &mut impl Read, block: &mut [u8], input: Input) -> Next {
    if input.taken < input.have {
        return Next {
            character: Some(octets::octet(block, input.taken)),
            input: Input {
                taken: input.taken + 1,
                have: input.have,
            },
        };
    }
    let have = reader.read(block).unwrap_or(0);
    Next {
        character: (0 < have).then_some(octets::octet(block, 0)),
        input: Input { taken: 1, have },
    }
}

// Keeps a character at a place, where the room has it.
fn keep(room: &mut [u8], at: usize, character: u8)
    ensures { room.new ≡ set room.old at character }
{
    if at < room.len() {
        room[at] = character;
    }
}

// Reads a line. A longer one than the room is read to its end; none uses the count up. What the room has of it has no LF.
pub fn read_line(
    reader: &mut impl Read,
    block: &mut [u8],
    room: &mut [u8],
    mut input: Input,
) -> Line
    ensures { has_lf (take result.size room.new) ≡ false }
{
    for size in 0..usize::MAX {
        let next = next_character(reader, block, input);
        input = next.input;
        match next.character {
            Some(LF) => {
                return Line {
                    size,
                    whole: true,
                    input,
                };
            }
            Some(character) => keep(room, size, character),
            None => {
                return Line {
                    size,
                    whole: false,
                    input,
                };
            }
        }
    }
    Line {
        size: usize::MAX,
        whole: false,
        input,
    }
}
