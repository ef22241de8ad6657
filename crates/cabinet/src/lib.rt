// What the cabinet's host program, in C, calls (document 01: "hands the frame check a frame, getting a number back, 0 if
// sound"). host/cendraviu.h declares it; the static library `cabinet_c` exports it, since a library exports nothing to C.
#![tactic(auto)]

ghost use Rattle.std.specs.Prelude.{◌≡◌};
ghost use Rattle.frame.specs.Opening.{opening, number_in};

// The refusal number of a frame, 0 if it is sound.
#[unsafe(no_mangle)]
pub extern "C" fn cendraviu_frame_check(frame: &[u8]) -> u8
    ensures { result ≡ number_in (opening frame.now) }
{
    match frame::check(frame) {
        Ok(_) => refusal::SOUND,
        Err(refused) => refused.refusal.number(),
    }
}
