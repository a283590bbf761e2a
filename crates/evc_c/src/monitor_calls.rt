//! The functions on a monitor in the caller's memory.
//!
//! A caller guarantees that a pointer is to a monitor that `evc_monitor_open` has opened, and that
//! no other call uses it at the same time.
ghost use Rattle.std.specs.Prelude.{◌≡◌, ◌≤◌};
ghost use Rattle.std.specs.Borrow.{sem};
ghost use Rattle.evc_c.specs.declared.monitor.Monitor.{Monitor};
ghost use Rattle.evc_c.specs.Monitors.{IsOpen, TakesLine, EndsText, ReportsNote, ReportsLoad, IsClosed};
ghost use Rattle.evc_c.specs.Places.{monitor_size, room_size, room_for_monitor, monitor_at};

use crate::monitor::{EvcLoad, Monitor};
use std::alloc::Global;
use std::mem::size_of;

/// Returns the size of a monitor, in bytes.
#[unsafe(no_mangle)]
pub extern "C" fn evc_monitor_size() -> usize
    ensures size { result ≡ monitor_size }
    ensures fits { result ≤ room_size }
{
    size_of::<Monitor>()
}

/// Opens a monitor without lines.
#[unsafe(no_mangle)]
pub unsafe extern "C" fn evc_monitor_open(alloc: Global, at: *mut u8)
    requires* { sem 𝓛 (room_for_monitor at) }
    ensures* { ∃ₛ (λ (new : Monitor). sem 𝓛 (monitor_at at new)
        ∗ ⌜ IsOpen new ⌝) }
{
    (at as *mut Monitor).write(Monitor::new(alloc));
}

/// Checks the next line of the text, given without its LF.
#[unsafe(no_mangle)]
pub unsafe extern "C" fn evc_monitor_line(at: *mut u8, line: &[u8]) -> u8
    ghost old: { Monitor }
    requires* { sem 𝓛 (monitor_at at old) }
    ensures* { ∃ₛ (λ (new : Monitor). sem 𝓛 (monitor_at at new)
        ∗ ⌜ TakesLine line.now result old new ⌝) }
{
    (&mut *(at as *mut Monitor)).line(line)
}

/// Ends the text after its last line.
#[unsafe(no_mangle)]
pub unsafe extern "C" fn evc_monitor_end(at: *mut u8) -> u8
    ghost old: { Monitor }
    requires* { sem 𝓛 (monitor_at at old) }
    ensures* { ∃ₛ (λ (new : Monitor). sem 𝓛 (monitor_at at new)
        ∗ ⌜ EndsText result old new ⌝) }
{
    (&mut *(at as *mut Monitor)).end()
}

/// Copies into a buffer as much of the note on what stopped a monitor as fits, and returns how many
/// bytes.
#[unsafe(no_mangle)]
pub unsafe extern "C" fn evc_monitor_note(at: *mut u8, note: &mut [u8]) -> usize
    ghost old: { Monitor }
    requires* { sem 𝓛 (monitor_at at old) }
    ensures* { ∃ₛ (λ (new : Monitor). sem 𝓛 (monitor_at at new)
        ∗ ⌜ ReportsNote old new result note.old note.new ⌝) }
{
    (&mut *(at as *mut Monitor)).note(note)
}

/// Stores how many histories and calls there were, and how far the calls overlap.
#[unsafe(no_mangle)]
pub unsafe extern "C" fn evc_monitor_load(at: *mut u8, load: &mut EvcLoad)
    ghost old: { Monitor }
    requires* { sem 𝓛 (monitor_at at old) }
    ensures* { ∃ₛ (λ (new : Monitor). sem 𝓛 (monitor_at at new)
        ∗ ⌜ ReportsLoad old new load.new ⌝) }
{
    (&mut *(at as *mut Monitor)).load(load)
}

/// Closes a monitor: frees all memory that it allocated.
#[unsafe(no_mangle)]
pub unsafe extern "C" fn evc_monitor_close(at: *mut u8)
    ghost old: { Monitor }
    requires* { sem 𝓛 (monitor_at at old) }
    ensures* { ∃ₛ (λ (new : Monitor). sem 𝓛 (monitor_at at new)
        ∗ ⌜ IsClosed new ⌝) }
{
    (&mut *(at as *mut Monitor)).close()
}
