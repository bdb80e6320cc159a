// The versions of logs.
ghost use Rattle.std.specs.Prelude.{◌≡◌};
ghost use Rattle.log_file.specs.Versions.{magic_of, header_len, last_end};

/// A version of the format of logs.
#[derive(Clone, Copy, Debug, PartialEq, Eq)]
pub(crate) enum Version {
    /// Knows no input numbers: a header has no count of them, and none stand after the entries.
    One,
    /// The version that is written.
    Two,
}

impl Version {
    // The first four bytes.
    pub(crate) fn magic(self) -> [u8; 4]
        ensures { result ≡ magic_of self }
    {
        match self {
            Version::One => *b"LLG1",
            Version::Two => *b"LLG2",
        }
    }

    // How many bytes the header of a thread has.
    pub(crate) fn header_len(self) -> usize
        ensures { result ≡ header_len self }
    {
        match self {
            Version::One => 17,
            Version::Two => 21,
        }
    }

    // The greatest number of an end.
    pub(crate) fn last_end(self) -> u8
        ensures { result ≡ last_end self }
    {
        match self {
            Version::One => 5,
            Version::Two => 6,
        }
    }
}
