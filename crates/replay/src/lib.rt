// The receivers' rule, once for digits and signalling (document 01, "Receivers"): what a payload appends, by its step. The
// theorem on it stands in specs/Claims.antt.
#![tactic(auto)]

ghost use Rattle.std.specs.Prelude.{◌≡◌};
ghost use Rattle.replay.specs.Rule.{step_taken, fill_count, carried_count};

// The step that a payload takes: 3 where none was heard before it.
pub fn step_taken(heard: bool, step: u8) -> u8
    ensures { result ≡ step_taken heard step }
{
    if heard { step } else { 3 }
}

// How many filled periods a step appends.
pub fn fill_count(step: u8) -> u8
    ensures { result ≡ fill_count step }
{
    if 3 < step { step - 3 } else { 0 }
}

// How many carried periods a step appends.
pub fn carried_count(step: u8) -> u8
    ensures { result ≡ carried_count step }
{
    if step < 3 { step } else { 3 }
}
