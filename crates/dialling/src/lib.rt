// The digit sender, one entry per 20 ms (document 01, "Senders, per 20 ms").
#![tactic(auto)]

ghost use Rattle.std.specs.Prelude.{◌≡◌, Ok};
ghost use Rattle.dialling.specs.Sender.{fresh_sender, window_in, changes, stray_edge, loud, due, tail_after, period, sending};

use counts::DigitCount;
use digits::layout::{Digits, Window};
use refusal::Refusal;

// What a period is to be: off, or on with a code; where in it the change lies, in ms; and the level of its own payload.
#[derive(Clone, Copy)]
pub struct Entry {
    pub on: bool,
    pub code: u8,
    pub edge: u8,
    pub level: i8,
}

// What the next period depends on: the number of the next sent period; the entry before (code 0 when off); how many periods
// from here on are sent though off and unchanged; the last two sent periods.
#[derive(Clone, Copy)]
pub struct Sender {
    next: DigitCount,
    on: bool,
    code: u8,
    tail: u8,
    recent: Window,
    previous: Window,
}

// The period of an entry.
fn window_in(entry: Entry) -> Window
    ensures { result ≡ window_in entry }
{
    Window {
        on: entry.on,
        edge: entry.edge,
        code: if entry.on { entry.code } else { 0 },
    }
}

impl Sender {
    // The sender at its start.
    pub fn fresh() -> Sender
        ensures { result ≡ fresh_sender }
    {
        Sender {
            next: DigitCount(0),
            on: false,
            code: 0,
            tail: 0,
            recent: digits::layout::off_window(),
            previous: digits::layout::off_window(),
        }
    }

    // Whether off, on or code changes from the entry before.
    fn changes(self, window: Window) -> bool
        ensures { result ≡ changes self window }
    {
        if self.on && window.on {
            self.code != window.code
        } else {
            self.on != window.on
        }
    }

    // An edge without a change.
    fn stray_edge(self, window: Window) -> bool
        ensures { result ≡ stray_edge self window }
    {
        window.edge != 0 && !self.changes(window)
    }

    // Whether a period is sent for its own sake: it is on or changes.
    fn loud(self, window: Window) -> bool
        ensures { result ≡ loud self window }
    {
        window.on || self.changes(window)
    }

    // Whether it is sent: for its own sake, or as one of the three after such a one.
    fn due(self, window: Window) -> bool
        ensures { result ≡ due self window }
    {
        self.loud(window) || 0 < self.tail
    }

    // How many of the three are still to come after this one.
    fn tail_after(self, window: Window) -> u8
        ensures { result ≡ tail_after self window }
    {
        if self.loud(window) {
            return 3;
        }
        self.tail.saturating_sub(1)
    }

    // A period that is not refused.
    fn period(&mut self, window: Window, level: i8) -> Option<Digits>
        ensures answer { Ok result ≡ (period self.old window level).answer }
        ensures after { self.new ≡ (period self.old window level).sender }
    {
        let before = *self;
        self.on = window.on;
        self.code = window.code;
        self.tail = before.tail_after(window);
        if !before.due(window) {
            return None;
        }
        self.next = before.next.next();
        self.recent = window;
        self.previous = before.recent;
        Some(Digits {
            sequence: before.next,
            level,
            current: window,
            recent: before.recent,
            previous: before.previous,
        })
    }

    // Takes the entry of a period: whether it is sent, and as which payload. A refused entry leaves the sender as it was.
    #[tactic(auto, using(crate::proofs::SenderCases::wrong, crate::proofs::SenderCases::low, crate::proofs::SenderCases::stray))]
    pub fn send(&mut self, entry: Entry) -> Result<Option<Digits>, Refusal>
        ensures answer { result ≡ (sending self.old entry).answer }
        ensures after { self.new ≡ (sending self.old entry).sender }
    {
        let window = window_in(entry);
        if digits::layout::window_wrong(window) || digits::layout::level_low(entry.level) {
            return Err(Refusal::ValueOutOfRange);
        }
        if self.stray_edge(window) {
            return Err(Refusal::EdgeWithoutChange);
        }
        Ok(self.period(window, entry.level))
    }
}
