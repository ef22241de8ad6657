// What a program prints, and what it says on standard error.
use std::io::ErrorKind;

// Says on standard error, behind the program's name, what it has met. Where that fails, nothing is said.
pub(crate) fn say(rt: &impl Eprint, program: &[u8], what: &str) {
    let _ = eprint!(rt; "{}{what}", program.escape_ascii());
}

// Prints as many octets of a room from its start, and answers whether that went well. Where it did not, it says so, unless what read
// the output went away.
pub fn print(rt: &(impl Print + Eprint), program: &[u8], room: &[u8], used: usize) -> bool {
    let end = octets::least(used, room.len());
    match rt.write_all(&room[0..end]) {
        Ok(()) => true,
        Err(error) => {
            if error.kind() != ErrorKind::BrokenPipe {
                say(rt, program, ": a write failed\n");
            }
            false
        }
    }
}
