// Levels in dBm0, from and to their magnitudes (document 01, "Payload types": SID and digits).
#![tactic(auto)]

ghost use Rattle.std.specs.Prelude.{◌≡◌};
ghost use Rattle.levels.specs.Level.{level_of, code_of};

// Why a level has no code of its own.
#[derive(Clone, Copy, Debug, PartialEq, Eq)]
pub enum Beyond {
    // It is above zero.
    Above,
    // Its magnitude is too large.
    Below,
}

// The level whose magnitude stands in the low six bits of an octet.
pub fn level_of(octet: u8) -> i8
    ensures { result ≡ level_of octet }
{
    -((octet % 64) as i8)
}

// A level negated, where its magnitude is at most the largest that the octet carries.
pub fn code_of(level: i8, most: u8) -> Result<u8, Beyond>
    ensures { result ≡ code_of most level }
{
    if 0 < level {
        return Err(Beyond::Above);
    }
    let magnitude = level.unsigned_abs();
    if magnitude <= most {
        Ok(magnitude)
    } else {
        Err(Beyond::Below)
    }
}
