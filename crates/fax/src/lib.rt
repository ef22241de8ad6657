// Fax payloads, read and written (document 01, "Payload types": fax; FRF.11, Annex D).
#![tactic(auto)]

ghost use Rattle.std.specs.Prelude.{◌≡◌, true, false, cond, ◌<◌, ◌≤◌, ltb, length, get_or, take};
ghost use Rattle.octets.specs.Made.{fit_of, put_made, left_made};
ghost use Rattle.fax.specs.declared.Command.{Command};
ghost use Rattle.fax.specs.Fax.{ei1_for, code_of, stamp_octets, command_octets, head_octets, front_of, bit8, ei1_in, code_in, time_in, command_of, unstamped, is_page, body_sized, tone_refused, refused_on, fax_read, stamp_number, fax_made};

use refusal::Refusal;

// The largest sequence of 4 bits, the largest stamp of 15, and the last modulation of the table.
const MOST_SEQUENCE: u8 = 15;

const MOST_STAMP: u16 = 32767;

const LAST_MODULATION: u8 = 11;

// The relay command; `Page` is document 01's command 2, data.
#[derive(Clone, Copy, Debug, PartialEq, Eq)]
pub enum Command {
    Off,
    On {
        hdlc: bool,
        modulation: u8,
        frequency: u16,
    },
    Page,
    EndOfFrame,
    Abort,
}

// What reading a fax payload tells. The stamp is there exactly when EI1 is 1; the data octets stand behind `front` octets.
#[derive(Clone, Copy, Debug, PartialEq, Eq)]
pub struct Fax {
    pub sequence: u8,
    pub stamp: Option<u16>,
    pub command: Command,
    pub front: usize,
}

// Document 01's numbers of data octets: 3, and 12 to 72 in steps of 12.
#[tactic(auto, unfolding(crate::specs::Fax::is_page))]
fn is_page(octets: usize) -> bool
    ensures { result ≡ is_page octets }
{
    // A match on the seven sizes would compile to a table of jumps (docs/DECISIONS.md).
    octets == 3 || (octets != 0 && octets <= 72 && octets % 12 == 0)
}

// Whether a command takes so many data octets.
#[tactic(auto, unfolding(crate::specs::Fax::body_sized))]
fn body_fits(command: Command, octets: usize) -> bool
    ensures { result ≡ body_sized command octets }
{
    match command {
        Command::Off | Command::On { .. } => octets == 0,
        Command::Page => is_page(octets),
        Command::EndOfFrame | Command::Abort => octets == 3,
    }
}

// A modulation that is no code of the table, or a frequency beside another modulation than the single tone, 0.
#[tactic(auto, unfolding(crate::specs::Fax::tone_refused))]
fn tone_refused(modulation: u8, frequency: u16) -> bool
    ensures { result ≡ tone_refused modulation frequency }
{
    LAST_MODULATION < modulation || (0 < modulation && 0 < frequency)
}

// Off and on, commands 0 and 1, need EI1.
fn needs_stamp(code: u8) -> bool
    ensures { result ≡ ltb code 2 }
{
    code < 2
}

// A command that has no octets of its own.
#[tactic(auto, unfolding(crate::specs::Fax::command_of))]
fn plain_command(code: u8) -> Command
    requires { (code ≡ 1 → ⊥) × (code ≤ 4) }
    ensures { (on : Command) → result ≡ command_of code on }
{
    match code {
        0 => Command::Off,
        2 => Command::Page,
        3 => Command::EndOfFrame,
        _ => Command::Abort,
    }
}

// EI2, the highest bit of the second octet of a stamp.
fn ei2_set(payload: &[u8]) -> bool
    requires { 3 ≤ length payload.now }
    ensures { result ≡ bit8 (get_or payload.now 2 0) }
{
    128 <= payload[2]
}

// The stamp, in the two octets behind the first.
fn time_in(payload: &[u8]) -> u16
    requires { 3 ≤ length payload.now }
    ensures { result ≡ time_in payload.now }
{
    octets::double(payload[2] % 128, payload[1])
}

// Reads a payload without EI1: the data octets stand behind the first.
fn read_bare(payload: &[u8]) -> Result<Fax, Refusal>
    requires { (0 < length payload.now) × (code_in payload.now ≤ 4) × (ei1_in payload.now ≡ false) }
    ensures { result ≡ fax_read payload.now }
{
    let first = payload[0];
    if needs_stamp(first % 8) {
        return Err(Refusal::ReservedCode);
    }
    let command = plain_command(first % 8);
    if !body_fits(command, payload.len() - 1) {
        return Err(Refusal::LengthWrong);
    }
    Ok(Fax {
        sequence: first / 8 % 16,
        stamp: None,
        command,
        front: 1,
    })
}

// Reads the command on: its three octets stand behind the stamp.
fn read_on(payload: &[u8]) -> Result<Fax, Refusal>
    requires { (0 < length payload.now) × (code_in payload.now ≡ 1) × (ei1_in payload.now ≡ true) }
    ensures { result ≡ fax_read payload.now }
{
    if payload.len() != 6 {
        return Err(Refusal::LengthWrong);
    }
    if ei2_set(payload) {
        return Err(Refusal::ReservedCode);
    }
    let on = payload[3];
    if on / 16 % 8 != 0 {
        return Err(Refusal::ReservedCode);
    }
    let modulation = on % 16;
    let frequency = octets::double(payload[5], payload[4]);
    if tone_refused(modulation, frequency) {
        return Err(Refusal::ReservedCode);
    }
    Ok(Fax {
        sequence: payload[0] / 8 % 16,
        stamp: Some(time_in(payload)),
        command: Command::On {
            hdlc: 128 <= on,
            modulation,
            frequency,
        },
        front: 6,
    })
}

// Reads another command with EI1: the data octets stand behind the stamp.
fn read_stamped(payload: &[u8]) -> Result<Fax, Refusal>
    requires { (0 < length payload.now) × (code_in payload.now ≤ 4) × (code_in payload.now ≡ 1 → ⊥) × (ei1_in payload.now ≡ true) }
    ensures { result ≡ fax_read payload.now }
{
    let first = payload[0];
    let command = plain_command(first % 8);
    if payload.len() < 3 {
        return Err(Refusal::LengthWrong);
    }
    if !body_fits(command, payload.len() - 3) {
        return Err(Refusal::LengthWrong);
    }
    if ei2_set(payload) {
        return Err(Refusal::ReservedCode);
    }
    Ok(Fax {
        sequence: first / 8 % 16,
        stamp: Some(time_in(payload)),
        command,
        front: 3,
    })
}

// Reads a fax payload: the first octet decides what stands behind it.
#[tactic(auto, unfolding(crate::specs::Fax::fax_read))]
pub fn read_fax(payload: &[u8]) -> Result<Fax, Refusal>
    ensures { result ≡ fax_read payload.now }
{
    if payload.is_empty() {
        return Err(Refusal::LengthWrong);
    }
    let first = payload[0];
    if 4 < first % 8 {
        return Err(Refusal::ReservedCode);
    }
    if first < 128 {
        return read_bare(payload);
    }
    if first % 8 == 1 {
        return read_on(payload);
    }
    read_stamped(payload)
}

fn ei1_for(stamp: Option<u16>) -> u8
    ensures { (result ≡ ei1_for stamp) × (result ≤ 1) }
{
    u8::from(stamp.is_some())
}

// The time of a stamp; 0 where there is none.
pub fn stamp_number(stamp: Option<u16>) -> u16
    ensures { result ≡ stamp_number stamp }
{
    stamp.unwrap_or(0)
}

// A command's number in the first octet.
pub fn code_of(command: Command) -> u8
    ensures { (result ≡ code_of command) × (result ≤ 4) }
{
    match command {
        Command::Off => 0,
        Command::On { .. } => 1,
        Command::Page => 2,
        Command::EndOfFrame => 3,
        Command::Abort => 4,
    }
}

// Off or on without its stamp.
fn lacks_stamp(stamp: Option<u16>, command: Command) -> bool
    ensures { result ≡ unstamped stamp command }
{
    stamp.is_none() && needs_stamp(code_of(command))
}

fn on_refused(command: Command) -> bool
    ensures { result ≡ refused_on command }
{
    match command {
        Command::On {
            modulation,
            frequency,
            ..
        } => tone_refused(modulation, frequency),
        _ => false,
    }
}

fn stamp_size(stamp: Option<u16>) -> usize
    ensures { (result ≡ length (stamp_octets stamp)) × (result ≤ 2) }
{
    if stamp.is_some() { 2 } else { 0 }
}

fn command_size(command: Command) -> usize
    ensures { (result ≡ length (command_octets command)) × (result ≤ 3) }
{
    match command {
        Command::On { .. } => 3,
        _ => 0,
    }
}

// How many octets stand in front of the data octets.
#[tactic(auto, unfolding(crate::specs::Fax::front_of))]
fn front_size(stamp: Option<u16>, command: Command) -> usize
    ensures { (result ≡ front_of stamp command) × (result ≤ 6) }
{
    1 + stamp_size(stamp) + command_size(command)
}

// The octets of a fax payload with this body, or the refusal.
#[tactic(auto, unfolding(crate::specs::Fax::fax_made))]
pub fn fit_fax(
    sequence: u8,
    stamp: Option<u16>,
    command: Command,
    body: &[u8],
) -> Result<usize, Refusal>
    ensures { result ≡ fit_of (fax_made sequence stamp command body.now) }
{
    if lacks_stamp(stamp, command) {
        return Err(Refusal::ReservedCode);
    }
    if !body_fits(command, body.len()) {
        return Err(Refusal::LengthWrong);
    }
    if on_refused(command) {
        return Err(Refusal::ReservedCode);
    }
    if MOST_SEQUENCE < sequence {
        return Err(Refusal::ValueOutOfRange);
    }
    if MOST_STAMP < stamp_number(stamp) {
        return Err(Refusal::ValueOutOfRange);
    }
    Ok(front_size(stamp, command) + body.len())
}

// A bit of an octet at its place, or 0.
fn bit(set: bool, place: u8) -> u8
    ensures { (result ≡ cond set place 0) × (result ≤ place) }
{
    if set { place } else { 0 }
}

// The octets in front of the data octets, first in an array of as many as they can be.
fn head_octets(sequence: u8, stamp: Option<u16>, command: Command) -> [u8; 6]
    requires { (sequence ≤ 15) × (unstamped stamp command ≡ false) × (refused_on command ≡ false) }
    ensures { take (front_of stamp command) result ≡ head_octets sequence stamp command }
{
    let first = ei1_for(stamp) * 128 + sequence * 8 + code_of(command);
    let time = stamp_number(stamp);
    let low = (time % 256) as u8;
    let high = (time / 256) as u8;
    match command {
        Command::On {
            hdlc,
            modulation,
            frequency,
        } => [
            first,
            low,
            high,
            bit(hdlc, 128) + modulation,
            (frequency % 256) as u8,
            (frequency / 256) as u8,
        ],
        _ => [first, low, high, 0, 0, 0],
    }
}

// Writes a fax payload at a place of lent room.
pub fn put_fax(
    room: &mut [u8],
    at: usize,
    sequence: u8,
    stamp: Option<u16>,
    command: Command,
    body: &[u8],
) -> Result<usize, Refusal>
    ensures answer { result ≡ put_made room.old at (fax_made sequence stamp command body.now) }
    ensures holds { room.new ≡ left_made room.old at (fax_made sequence stamp command body.now) }
{
    fit_fax(sequence, stamp, command, body)?;
    let head = head_octets(sequence, stamp, command);
    let front = front_size(stamp, command);
    octets::put_both(room, at, &head[..front], body)
}
