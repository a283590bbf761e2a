//! Bounds, as numbers.
ghost use Rattle.std.specs.Prelude.{◌≡◌};
ghost use Rattle.evc_c.specs.declared.calls.TheConstants.{NOTES_MAX};

/// States that the notes of a call on a trace or a script have a buffer of 1024 bytes.
pub fn notes_have_room_for_1024_bytes()
    ensures { NOTES_MAX ≡ 1024 }
{}
