// A recording from a reader, as standard input is: its text, then piece after piece. A read that fails ends the input.
ghost use Rattle.std.specs.Prelude.{◌≡◌, ◌≤◌, true, length, take};
ghost use Rattle.recording.specs.Pieces.{text_end};
ghost use Rattle.provisioning.specs.Text.{reading, answer, table_after};
ghost use Rattle.streaming.specs.Pieces.{Within, left};

use provisioning::text::Refused;
use std::io::Read;

// A piece of the input: the octets of its room from a place up to another.
#[derive(Clone, Copy)]
pub struct Piece {
    pub from: usize,
    pub to: usize,
}

// How a recording starts: what reading its text tells, and what was read behind it.
#[derive(Clone, Copy)]
pub struct Start {
    pub text: Result<usize, Refused>,
    pub behind: Piece,
}

// Reads once, and answers how many octets that put at the start of the room: none at the end of the input.
fn read_some(reader: &mut impl Read, room: &mut [u8]) -> usize
    ensures { result ≤ length room.new }
{
    reader.read(room).unwrap_or(0)
}

// Reads until the room is full or the input ends, and answers how many octets that put at its start.
pub fn read_full(reader: &mut impl Read, room: &mut [u8]) -> usize
    ensures { result ≤ length room.new }
{
    let mut done: usize = 0;
    // Stays a `while`: each read tells how far it came.
    while done < room.len() {
        let n = read_some(reader, &mut room[done..]);
        if n == 0 {
            return done;
        }
        done += n;
    }
    done
}

// Prints the lines of a refused text, and says of one that has a CR that it has.
fn refuse(rt: &(impl Print + Eprint), program: &[u8], refused: Refused, text: &[u8]) {
    // Room for the names and 20 digits behind each.
    let mut room = [0u8; 52];
    let used = printing::refused::put_refused_text(
        &mut room,
        0,
        refused.refusal.number(),
        refused.line,
    );
    if crate::output::print(rt, program, &room, used) && text.contains(&b'\r') {
        crate::output::say(
            rt,
            program,
            ": the text has CR, and a line ends with LF alone\n",
        );
    }
}

// Reads the start of a recording, and its text into the table. A refused text is told: its lines are printed.
#[tactic(auto, using(recording::proofs::Bounds::text_ends))]
pub fn begin(
    rt: &(impl Print + Eprint),
    reader: &mut impl Read,
    program: &[u8],
    input: &mut [u8],
    table: &mut [u16; 256],
) -> Start
    ensures within { Within result.behind (length input.new) }
    ensures ends { result.behind.from ≡ text_end (take result.behind.to input.new) }
    ensures says { result.text ≡ answer (reading (take result.behind.from input.new)) }
    ensures holds { table.new ≡ table_after (reading (take result.behind.from input.new)) table.old }
{
    let to = read_full(reader, input);
    let from = recording::pieces::text_end(&input[..to]);
    let text = &input[..from];
    let read = provisioning::text::read_text(text, table);
    if let Err(refused) = read {
        refuse(rt, program, refused, text);
    }
    Start {
        text: read,
        behind: Piece { from, to },
    }
}

// Whether some of a piece is left, and it lies within a room of so many octets.
fn is_left(piece: Piece, room: usize) -> bool
    ensures { result ≡ left piece room }
{
    piece.from < piece.to && piece.to <= room
}

// What is left of a piece, and the room as it was; where nothing is, the next piece, which is empty at the end of the input.
pub fn next(reader: &mut impl Read, input: &mut [u8], piece: Piece) -> Piece
    ensures within { Within result (length input.new) }
    ensures rest { left piece (length input.old) ≡ true → (result ≡ piece) × (input.new ≡ input.old) }
{
    if is_left(piece, input.len()) {
        return piece;
    }
    let to = read_some(reader, input);
    Piece { from: 0, to }
}
