// A field: its name, a number in decimal digits, LF.
ghost use Rattle.std.specs.Prelude.{◌≡◌, ◌+◌, ◌≤◌, ◌<◌, length};
ghost use Rattle.octets.specs.Room.{written};
ghost use Rattle.printing.specs.Decimal.{four_digits, decimal};
ghost use Rattle.printing.specs.Field.{field};
ghost use Rattle.printing.specs.Room.{fitting, Appended};

use crate::append::{put_octet, put_text};
use octets::text::LF;

// The four digits of a number below 10,000, leading zeros with them.
fn put_four_digits(out: &mut [u8], at: usize, n: u64) -> usize
    requires n_bound { n < 10000 }
    requires at_in_bounds { at + 4 ≤ length out.old }
    ensures { Appended out.old at (four_digits n) 4 out.new result }
{
    let first = put_octet(out, at, 48 + (n / 1000) as u8);
    let second = put_octet(out, first, 48 + (n / 100 % 10) as u8);
    let third = put_octet(out, second, 48 + (n / 10 % 10) as u8);
    put_octet(out, third, 48 + (n % 10) as u8)
}

// A number below 10,000, without leading zeros.
fn put_small(out: &mut [u8], at: usize, n: u64) -> usize
    requires n_bound { n < 10000 }
    requires at_in_bounds { at + 4 ≤ length out.old }
    ensures { Appended out.old at (decimal n) 4 out.new result }
{
    if n < 10 {
        return put_octet(out, at, 48 + n as u8);
    }
    if n < 100 {
        let ones = put_octet(out, at, 48 + (n / 10) as u8);
        return put_octet(out, ones, 48 + (n % 10) as u8);
    }
    if n < 1000 {
        let tens = put_octet(out, at, 48 + (n / 100) as u8);
        let ones = put_octet(out, tens, 48 + (n / 10 % 10) as u8);
        return put_octet(out, ones, 48 + (n % 10) as u8);
    }
    put_four_digits(out, at, n)
}

// A number, four digits at a time.
fn put_number(out: &mut [u8], at: usize, n: u64) -> usize
    requires { at + 20 ≤ length out.old }
    ensures { Appended out.old at (decimal n) 20 out.new result }
{
    if n < 10000 {
        return put_small(out, at, n);
    }
    let next = put_number(out, at, n / 10000);
    put_four_digits(out, next, n % 10000)
}

pub(crate) fn append_field(out: &mut [u8], at: usize, key: &[u8], n: u64) -> usize
    requires { at + (length key.now + 21) ≤ length out.old }
    ensures { Appended out.old at (field key.now n) (length key.now + 21) out.new result }
{
    let value = put_text(out, at, key);
    let end = put_number(out, value, n);
    put_octet(out, end, LF)
}

// Puts a field into room from a place on, and answers the place after it. Nothing is put where room is not there for its name, 20
// digits and LF.
pub fn put_field(out: &mut [u8], at: usize, key: &[u8], n: u64) -> usize
    ensures answer { result ≡ at + length (fitting (length key.now + 21) out.old at (field key.now n)) }
    ensures holds { out.new ≡ written out.old at (fitting (length key.now + 21) out.old at (field key.now n)) }
{
    if octets::exceeds(out.len(), at, key.len() + 21) {
        return at;
    }
    append_field(out, at, key, n)
}

// A field of a number below 10,000.
fn append_small_field(out: &mut [u8], at: usize, key: &[u8], n: u64) -> usize
    requires n_bound { n < 10000 }
    requires key_in_bounds { at + (length key.now + 21) ≤ length out.old }
    ensures { Appended out.old at (field key.now n) (length key.now + 21) out.new result }
{
    let value = put_text(out, at, key);
    let end = put_small(out, value, n);
    put_octet(out, end, LF)
}

// The same as `put_field`, of a number that an octet holds: small enough for the compiler to put it in place.
pub fn put_octet_field(out: &mut [u8], at: usize, key: &[u8], n: u8) -> usize
    ensures answer { result ≡ at + length (fitting (length key.now + 21) out.old at (field key.now n)) }
    ensures holds { out.new ≡ written out.old at (fitting (length key.now + 21) out.old at (field key.now n)) }
{
    if octets::exceeds(out.len(), at, key.len() + 21) {
        return at;
    }
    append_small_field(out, at, key, n as u64)
}
