//! Where the first faulty prefix of a history is sought: mostly right after the events that a fault
//! names, so that few prefixes are judged.
ghost use Rattle.std.specs.Prelude.{◌≡◌, ◌+◌, ◌-◌, ◌<◌, ◌≤◌, ◌/◌, ℕ, length, get_or, false, true};
ghost use Rattle.calls_core.specs.declared.history.Event.{Event};

use calls_core::Part;

/// Returns how many events come before the first one that is after a position.
pub fn events_up_to(events: &Part<'_>, position: usize) -> usize
    ensures within { result ≤ length events.now }
    ensures up_to { (d : Event) (i : ℕ) → i < result → (get_or events.now i d).at ≤ position }
    ensures after { (d : Event) → result < length events.now
        → position < (get_or events.now result d).at }
{
    let mut n = 0;
    while n < events.len() {
        if events.at(n).at > position {
            return n;
        }
        n += 1;
    }
    n
}

/// Returns a number between two others: this guess, or the number below the greater one if the
/// guess is not between them; but the middle if it `halves`.
pub fn next_between(low: usize, high: usize, guess: usize, halves: bool) -> usize
    requires apart { low + 1 < high }
    ensures above { low < result }
    ensures below { result < high }
    ensures middle { halves ≡ true → result ≡ low + (high - low) / 2 }
    ensures guess { halves ≡ false → low < guess → guess < high → result ≡ guess }
    ensures last { halves ≡ false → ((low < guess) × (guess < high) → ⊥) → result + 1 ≡ high }
{
    if halves {
        return low + (high - low) / 2;
    }
    if low < guess && guess < high {
        guess
    } else {
        high - 1
    }
}
