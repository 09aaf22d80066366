//! Releases of Java, and the versions of their class files (JVMS SE 25 §4.1).

use jl_classfile::{NEWEST_KNOWN, NEWEST_OF_17, Version};

/// The newest major version of a release is so much above the release's number.
const ABOVE_RELEASE: u16 = 44;

/// The first release whose class files are read.
pub(crate) const FIRST_RELEASE: u16 = NEWEST_OF_17 - ABOVE_RELEASE;

/// The last release whose class files are read.
pub(crate) const LAST_RELEASE: u16 = NEWEST_KNOWN - ABOVE_RELEASE;

/// The newest major version of the release.
pub(crate) fn newest_of(release: u16) -> u16 {
    release.saturating_add(ABOVE_RELEASE)
}

/// The release by which class files of this version are read, and by the one before it not.
pub(crate) fn release_that_takes(version: Version) -> Option<u16> {
    if version.minor == 0 && version.major > NEWEST_OF_17 && version.major <= NEWEST_KNOWN {
        Some(version.major - ABOVE_RELEASE)
    } else {
        None
    }
}
