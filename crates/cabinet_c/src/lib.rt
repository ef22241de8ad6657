// The static library that the cabinet's host program, in C, links: `cabinet`'s frame check, exported. host/cendraviu.h declares it, and
// host/build writes the archive.
#![tactic(auto)]

ghost use Rattle.std.specs.Prelude.{◌≡◌};
ghost use Rattle.frame.specs.Opening.{opening, number_in};

// The refusal number of a frame, 0 if it is sound.
#[unsafe(no_mangle)]
pub extern "C" fn cendraviu_frame_check(frame: &[u8]) -> u8
    ensures { result ≡ number_in (opening frame.now) }
{
    cabinet::cendraviu_frame_check(frame)
}
