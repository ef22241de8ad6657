// A recording line by line, from pieces of any size, in fixed memory (document 01, "Listing program").
ghost use Rattle.std.specs.Prelude.{◌≡◌, length};
ghost use Rattle.octets.specs.Room.{written};
ghost use Rattle.hexline.specs.Line.{octets_of};
ghost use Rattle.recording.specs.Stream.{next_number, held_by, kept_behind, taken};

use refusal::Refusal;

// The room for the present line: the octets that decide what it holds (`StartTells`), that is `frame=`, 3,200 characters, and one
// more.
pub const MOST_KEPT: usize = 3207;

// Between two pieces: how many octets of the present line are kept, and its frame number.
#[derive(Clone, Copy)]
pub struct Begun {
    pub have: usize,
    pub number: u64,
}

// What taking a line from a piece tells: the octets of the piece that it takes; what the line holds, or `None` where it goes on behind
// the piece; and how the next line stands.
#[derive(Clone, Copy)]
pub struct Taken {
    pub size: usize,
    pub line: Option<Result<usize, Refusal>>,
    pub next: Begun,
}

// What telling a piece does: the octets taken of it, the octets of text, and how the next line stands (`answered`).
#[derive(Clone, Copy)]
pub struct Walked {
    pub taken: usize,
    pub used: usize,
    pub next: Begun,
}

// The frame number after this one. The last of 64 bits stays.
#[tactic(auto, unfolding(crate::specs::Stream::next_number))]
fn after(number: u64) -> u64
    ensures { result ≡ next_number number }
{
    number.saturating_add(1)
}

// Takes the line that a piece starts or goes on with. The octets of its frame stand at the start of `frame` where it is whole; where
// it goes on, what the piece has of it is kept.
pub fn take_line(piece: &[u8], begun: Begun, kept: &mut [u8; MOST_KEPT], frame: &mut [u8]) -> Taken
    ensures says { result ≡ taken (length frame.old) begun kept.old piece.now }
    ensures keeps { kept.new ≡ kept_behind begun.have kept.old piece.now }
    ensures holds { frame.new ≡ written frame.old 0 (octets_of (held_by (length frame.old) begun.have kept.old piece.now)) }
{
    let Begun { have, number } = begun;
    if have == 0 {
        let own = crate::pieces::line_end(piece);
        if own.whole {
            return Taken {
                size: own.size,
                line: Some(hexline::read_line(&piece[..own.size], frame)),
                next: Begun {
                    have: 0,
                    number: after(number),
                },
            };
        }
    }
    let line = crate::pieces::keep(kept, have, piece);
    if line.whole {
        let room: &[u8] = kept;
        let end = octets::least(line.have, room.len());
        return Taken {
            size: line.taken,
            line: Some(hexline::read_line(&room[..end], frame)),
            next: Begun {
                have: 0,
                number: after(number),
            },
        };
    }
    Taken {
        size: line.taken,
        line: None,
        next: Begun {
            have: line.have,
            number,
        },
    }
}
