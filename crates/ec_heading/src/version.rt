//! Versions of traces and scripts.
ghost use Rattle.std.specs.Prelude.{◌≡◌, ◌≤◌, IfSome};
ghost use Rattle.ec_heading.specs.Versions.{greatest_limit, as_limit, has_transfer};

use ec_count::Limit;

/// The version of a trace or a script: the number that ends its first line.
#[derive(Clone, Copy, Debug, PartialEq, Eq)]
pub enum Version {
    /// The limit is at most 4294967295, and there is no `hand`.
    One,
    /// The limit is at most 281474976710655, and `hand` transfers components.
    Two,
}

impl Version {
    /// Returns the greatest limit that a text of this version may have.
    pub fn greatest_limit(self) -> u64
        ensures { result ≡ greatest_limit self }
    {
        match self {
            Version::One => 4_294_967_295,
            Version::Two => 281_474_976_710_655,
        }
    }

    /// Returns whether texts of this version may transfer components, by `hand`.
    #[inline(always)]
    pub fn has_transfer(self) -> bool
        ensures { result ≡ has_transfer self }
    {
        match self {
            Version::One => false,
            Version::Two => true,
        }
    }

    /// Returns the limit n; `None` if a text of this version can't have it.
    #[tactic(auto, using(crate::proofs::shared::VersionFacts::limit_low))]
    pub fn limit(self, n: u64) -> Option<Limit>
        ensures value { result ≡ as_limit self n }
        ensures within { IfSome result (λ limit. limit ≤ greatest_limit self) }
    {
        if 1 <= n && n <= self.greatest_limit() {
            Limit::new(n)
        } else {
            None
        }
    }
}
