//! The version and the limit of a script.
ghost use Rattle.std.specs.Prelude.{◌≡◌, ◌≤◌, [], IfOk};
ghost use Rattle.ec_heading.specs.HeaderTree.{empty_heading};
ghost use Rattle.ec_heading.specs.Versions.{greatest_limit};
ghost use Rattle.ec_script.specs.Headers.{version_limit};

use ec_count::Limit;
use ec_heading::{Heading, Version};
use std::alloc::{AllocError, Global};
use std::marker::Model;

/// A version, and a limit that its texts may have. It is stored as a header that declares nothing.
#[derive(Drop)]
pub(crate) struct VersionLimit {
    heading: Heading,
}

impl Model for VersionLimit {
    ghost use Rattle.std.specs.Prelude.{◌≡◌, []};
    ghost use Rattle.ec_heading.specs.HeaderTree.{empty_heading};
    ghost use Rattle.ec_script.specs.Headers.{VersionLimitModel};

    ghost Value = { VersionLimitModel };

    ghost view = { λ b. record { version = b.heading.version; limit = b.heading.setup.limit } };

    ghost invariant = { λ b. b.heading ≡ empty_heading b.heading.version b.heading.setup.limit [] };
}

impl VersionLimit {
    /// Makes a bound of this version and limit.
    pub(crate) fn new(alloc: Global, version: Version, limit: Limit) -> Result<Self, AllocError>
        requires { limit ≤ greatest_limit version }
        ensures { IfOk result (λ b. b ≡ version_limit version limit) }
    {
        let heading = Heading::new(alloc, version, limit)?;
        Ok(VersionLimit { heading })
    }

    /// Returns the header of this version with this limit, which declares nothing.
    pub(crate) fn into_heading(self) -> Heading
        ensures { result ≡ empty_heading self.version self.limit [] }
    {
        self.heading
    }
}
