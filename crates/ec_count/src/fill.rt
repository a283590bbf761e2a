//! Arrays of one element.
ghost use Rattle.std.specs.Prelude.{◌≡◌, ℕ, ◌<◌, Some, length, slice_get};

/// Returns an array with the same element everywhere.
pub fn filled<T: Copy, const N: usize>(element: T) -> [T; N]
    ensures at { (i : ℕ) → i < N → slice_get result i ≡ Some element }
    ensures long { length result ≡ N }
{
    [element; N]
}
