//! Versions of a policy's text.

ghost use Rattle.std.specs.Prelude.{◌≡◌};
ghost use Rattle.pol_text.specs.Versions as versions;

use pol_pattern::Version;

/// Which version a text is of.
#[derive(Clone, Copy, Debug, PartialEq, Eq)]
pub enum TextVersion {
    One,
    Two,
    /// As version 2, and secrets may be hashes, and subjects may have lines about services.
    Three,
}

impl TextVersion {
    /// The version of the patterns in such a text.
    pub fn patterns(self) -> Version
        ensures { result ≡ versions.patterns_of self }
    {
        match self {
            TextVersion::One => Version::One,
            TextVersion::Two | TextVersion::Three => Version::Two,
        }
    }

    /// Whether secrets may be hashes in such a text.
    pub fn has_hashes(self) -> bool
        ensures { result ≡ versions.has_hashes self }
    {
        self == TextVersion::Three
    }

    /// Whether subjects may have lines about services in such a text.
    pub fn has_services(self) -> bool
        ensures { result ≡ versions.has_services self }
    {
        self == TextVersion::Three
    }
}
