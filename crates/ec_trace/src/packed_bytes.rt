//! Keys of short texts.
//!
//! A key is a few numbers that contain all bytes of a text. So two texts are compared by few
//! comparisons of numbers, with no loop and no call.
ghost use Rattle.std.specs.Prelude.{◌≡◌, ◌+◌, ◌≤◌, ◌<◌, IfSome, IsTrue, length, take, drop};
ghost use Rattle.ec_trace.specs.kept.PackedBytes.{eight_of, four_of};

/// The key of a text of 4 to 32 bytes: its length, and words of eight bytes of it, or of four if it
/// has fewer than eight.
///
/// The first word begins where the text does, and the last ends where it does. The second follows
/// the first, and the third precedes the last. In a text of fewer than 32 bytes words overlap.
#[derive(Clone, Copy)]
pub(crate) struct PackedBytes {
    first: u64,
    second: u64,
    third: u64,
    last: u64,
    len: u8,
}

impl PackedBytes {
    ghost use Rattle.ec_trace.specs.kept.PackedBytes.{key_bytes};

    /// Returns the key of a text of 4 to 32 bytes; `None` for any other.
    #[inline(always)]
    pub(crate) fn of(text: &[u8]) -> Option<Self>
        ensures { IfSome result (λ k. key_bytes k ≡ text.now) }
    {
        match text.len() {
            8..=32 => Some(PackedBytes::by_eight(text)),
            4..=7 => Some(PackedBytes::by_four(text)),
            _ => None,
        }
    }

    /// Returns the key of a text of eight to 32 bytes.
    #[inline(always)]
    #[tactic(auto, using(crate::proofs::PackedBytesLemmas::eights_hold))]
    fn by_eight(text: &[u8]) -> Self
        requires least { 8 ≤ length text.now }
        requires most { length text.now ≤ 32 }
        ensures { key_bytes result ≡ text.now }
    {
        let n = text.len();
        let last = n - 8;
        PackedBytes {
            first: eight_from(text, 0),
            second: eight_from(text, last.min(8)),
            third: eight_from(text, n.saturating_sub(16)),
            last: eight_from(text, last),
            len: n as u8,
        }
    }

    /// Returns the key of a text of four to seven bytes.
    #[inline(always)]
    #[tactic(auto, using(crate::proofs::PackedBytesLemmas::fours_hold))]
    fn by_four(text: &[u8]) -> Self
        requires least { 4 ≤ length text.now }
        requires most { length text.now < 8 }
        ensures { key_bytes result ≡ text.now }
    {
        let n = text.len();
        PackedBytes {
            first: four_from(text, 0) as u64,
            second: 0,
            third: 0,
            last: four_from(text, n - 4) as u64,
            len: n as u8,
        }
    }

    /// Returns whether it is this key.
    #[inline(always)]
    pub(crate) fn is(&self, other: &PackedBytes) -> bool
        ensures { IsTrue result → self.now ≡ other.now }
    {
        self.last == other.last
            && self.first == other.first
            && self.second == other.second
            && self.third == other.third
            && self.len == other.len
    }

    /// Returns the key's slot in a hash table. The number of slots is a power of two, up to 65536.
    ///
    /// The slot depends on all words of the key: two keys usually have different slots.
    #[inline(always)]
    pub(crate) fn place(&self, places: usize) -> usize {
        let head = self.first.wrapping_add(self.second.wrapping_mul(9));
        let tail = self.last.wrapping_add(self.third.wrapping_mul(9));
        let mixed = head
            .wrapping_mul(0x9E37_79B9_7F4A_7C15)
            .wrapping_add(tail.wrapping_mul(0xC2B2_AE3D_27D4_EB4F));
        (mixed >> 48) as usize & places.wrapping_sub(1)
    }
}

/// Returns eight bytes of a text as one number.
#[inline(always)]
fn eight_from(text: &[u8], from: usize) -> u64
    requires { from + 8 ≤ length text.now }
    ensures { eight_of result ≡ take 8 (drop from text.now) }
{
    u64::from_le_bytes([
        text[from],
        text[from + 1],
        text[from + 2],
        text[from + 3],
        text[from + 4],
        text[from + 5],
        text[from + 6],
        text[from + 7],
    ])
}

/// Returns four bytes of a text as one number.
#[inline(always)]
fn four_from(text: &[u8], from: usize) -> u32
    requires { from + 4 ≤ length text.now }
    ensures { four_of result ≡ take 4 (drop from text.now) }
{
    u32::from_le_bytes([text[from], text[from + 1], text[from + 2], text[from + 3]])
}
