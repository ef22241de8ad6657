// The lines of a payload that the trunk has taken (docs/FOLLOW.md).
ghost use Rattle.std.specs.Prelude.{◌≡◌, [], ◌∷◌, ◌+◌, ◌≤◌, length, take};
ghost use Rattle.printing.specs.Room.{Appended};
ghost use Rattle.following.specs.Following.{bit, window_octets, tens, period_lines, count_lines, dialled_lines, seized_lines, answer_lines};
ghost use Rattle.following.specs.Private.{period_line};

use digits::layout::Window;
use printing::field::put_field;
use printing::hex::put_hex_field;
use refusal::Refusal;
use trunk::Heard;

pub(crate) fn bit(b: bool) -> u8
    ensures { result ≡ bit b }
{
    u8::from(b)
}

fn window_octets(window: Window) -> [u8; 3]
    ensures { result ≡ window_octets window }
{
    [bit(window.on), window.edge, window.code]
}

fn put_counts(out: &mut [u8], at: usize, fills: u8, fill: &[u8], carried: u8) -> usize
    requires fill_len_bound { length fill.now ≤ 3 }
    requires at_in_bounds { at + 69 ≤ length out.old }
    ensures { Appended out.old at (count_lines fills fill.now carried) 69 out.new result }
{
    let past_filled = put_field(out, at, b"filled=", fills as u64);
    let past_with = put_hex_field(out, past_filled, b"with=", fill);
    put_field(out, past_with, b"carried=", carried as u64)
}

fn put_period(out: &mut [u8], at: usize, shown: bool, period: &[u8]) -> usize
    requires period_len_bound { length period.now ≤ 10 }
    requires at_in_bounds { at + 28 ≤ length out.old }
    ensures { Appended out.old at (period_line shown period.now) 28 out.new result }
{
    if shown {
        return put_hex_field(out, at, b"period=", period);
    }
    at
}

// The carried ones of three periods.
fn put_periods(
    out: &mut [u8],
    at: usize,
    carried: u8,
    first: &[u8],
    second: &[u8],
    third: &[u8],
) -> usize
    requires first_len_bound { length first.now ≤ 10 }
    requires second_len_bound { length second.now ≤ 10 }
    requires third_len_bound { length third.now ≤ 10 }
    requires at_in_bounds { at + 84 ≤ length out.old }
    ensures { Appended out.old at (period_lines (take carried (first.now ∷ second.now ∷ third.now ∷ []))) 84 out.new result }
{
    let past_first = put_period(out, at, 0 < carried, first);
    let past_second = put_period(out, past_first, 1 < carried, second);
    put_period(out, past_second, 2 < carried, third)
}

fn put_dialled(out: &mut [u8], at: usize, got: dialled::Appended) -> usize
    requires { at + 153 ≤ length out.old }
    ensures { Appended out.old at (dialled_lines got) 153 out.new result }
{
    let with = window_octets(got.fill);
    let first = window_octets(got.periods[0]);
    let second = window_octets(got.periods[1]);
    let third = window_octets(got.periods[2]);
    let past_counts = put_counts(out, at, got.fills, &with, got.carried);
    put_periods(out, past_counts, got.carried, &first, &second, &third)
}

// The carried ones of three periods of ten samples.
fn put_tens(out: &mut [u8], at: usize, carried: u8, samples: &[u8]) -> usize
    requires samples_len { length samples.now ≡ 30 }
    requires at_in_bounds { at + 84 ≤ length out.old }
    ensures { Appended out.old at (period_lines (take carried (tens samples.now))) 84 out.new result }
{
    put_periods(
        out,
        at,
        carried,
        &samples[0..10],
        &samples[10..20],
        &samples[20..30],
    )
}

fn put_seized(out: &mut [u8], at: usize, got: seized::Appended, receiver: seized::Receiver) -> usize
    requires { at + 207 ≤ length out.old }
    ensures { Appended out.old at (seized_lines got receiver) 207 out.new result }
{
    let past_counts = put_counts(out, at, got.fills, &[got.fill], got.carried);
    let past_periods = put_tens(out, past_counts, got.carried, &got.periods);
    let past_value = put_field(out, past_periods, b"value=", receiver.value as u64);
    put_field(out, past_value, b"alarm=", bit(receiver.alarm) as u64)
}

// What is printed of a payload behind `answer=`, with the signalling receiver after it.
pub(crate) fn put_answer(
    out: &mut [u8],
    at: usize,
    answer: Result<Heard, Refusal>,
    receiver: seized::Receiver,
) -> usize
    requires { at + 303 ≤ length out.old }
    ensures { Appended out.old at (answer_lines answer receiver) 303 out.new result }
{
    match answer {
        Ok(Heard::HeardDigits(got)) => put_dialled(out, at, got),
        Ok(Heard::HeardSignalling(got)) => put_seized(out, at, got, receiver),
        Ok(Heard::HeardFax(handed)) => crate::faxed::put_faxed(out, at, handed),
        Ok(Heard::HeardVoice | Heard::HeardSilence | Heard::HeardData) | Err(_) => at,
    }
}
