// Reading a provisioning text into the table (document 01, "Provisioning text").
ghost use Rattle.std.specs.Prelude.{◌≡◌};
ghost use Rattle.provisioning.specs.Text.{reading, answer, table_after};

use refusal::Refusal;

const MOST_OCTETS: usize = 8192;

// A refusal, and the line from 1, or 0 for the whole text.
#[derive(Clone, Copy)]
pub struct Refused {
    pub refusal: Refusal,
    pub line: usize,
}

// Reads a whole text, and tells how many blocks it has. The table is written where the text is taken, and is left as it was where it
// is refused.
pub fn read_text(text: &[u8], table: &mut [u16; 256]) -> Result<usize, Refused>
    ensures says { result ≡ answer (reading text.now) }
    ensures holds { table.new ≡ table_after (reading text.now) table.old }
{
    if MOST_OCTETS < text.len() {
        return Err(Refused {
            refusal: Refusal::TextTooLong,
            line: 0,
        });
    }
    let mut places = [0u16; 256];
    let mut state = crate::line::start();
    let mut rest = text;
    let mut done: usize = 0;
    let mut blocks: usize = 0;
    while !rest.is_empty() {
        match crate::line::line_at(rest, state) {
            Ok(line) => {
                state = line.state;
                rest = &rest[line.size..];
                done += 1;
                if crate::line::begins(state.kind) {
                    // The last line of a block.
                    places[state.cid as usize] = record::table::pack(state.made);
                    blocks += 1;
                }
            }
            Err(refusal) => {
                return Err(Refused {
                    refusal,
                    line: done + 1,
                });
            }
        }
    }
    if crate::line::begins(state.kind) {
        *table = places;
        return Ok(blocks);
    }
    // The block is cut: the line after the last is missing.
    let missing = done + 1;
    Err(Refused {
        refusal: Refusal::LineMalformed,
        line: missing,
    })
}
