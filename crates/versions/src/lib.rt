// The versions of a seal (document 01, Layout): version 3 and version 4, and no other. They are told apart where the
// version is read, so that no other number goes on from there.
#![tactic(auto)]

ghost use Rattle.std.specs.Prelude.{◌≡◌};
ghost use Rattle.versions.specs.Versions.{version_number, version_byte, version_of, version_of_byte, stated_of};

#[derive(Clone, Copy, Debug, PartialEq, Eq)]
pub enum Version {
    Three,
    Four,
}

// The error of a number or a byte that says no version.
#[derive(Clone, Copy, Debug, PartialEq, Eq)]
pub struct NoSuchVersion;

impl Version {
    // The version of this number: 3 or 4.
    pub fn from_number(number: usize) -> Result<Version, NoSuchVersion>
        ensures { stated_of result ≡ version_of number }
    {
        if number == 3 {
            return Ok(Version::Three);
        }
        if number == 4 {
            return Ok(Version::Four);
        }
        Err(NoSuchVersion)
    }

    // The version of this byte: 02 is version 3, 03 is version 4.
    pub fn from_byte(byte: usize) -> Result<Version, NoSuchVersion>
        ensures { stated_of result ≡ version_of_byte byte }
    {
        if byte == 0x02 {
            return Ok(Version::Three);
        }
        if byte == 0x03 {
            return Ok(Version::Four);
        }
        Err(NoSuchVersion)
    }

    // 3 or 4.
    pub fn number(self) -> usize
        ensures { result ≡ version_number self }
    {
        match self {
            Version::Three => 3,
            Version::Four => 4,
        }
    }

    // 02 or 03.
    pub fn byte(self) -> u8
        ensures { result ≡ version_byte self }
    {
        match self {
            Version::Three => 0x02,
            Version::Four => 0x03,
        }
    }
}
