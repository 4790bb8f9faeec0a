// The front of a file.
ghost use Rattle.std.specs.Prelude.{◌≡◌, ◌≤◌, ◌⊎◌, length};
ghost use Rattle.cdf_header.specs.Limits.{most_header_bytes};
ghost use Rattle.cdf_header.specs.Format.{wide};

/// The first bytes of a file, as far as they were read, and the file's version.
#[derive(Clone, Copy)]
pub(crate) struct Front<'a> {
    pub bytes: &'a [u8],
    pub version: u8,
    ghost small: { length bytes.now ≤ most_header_bytes },
}

impl Front<'_> {
    /// The bytes of a field that counts.
    pub fn wide(&self) -> usize
        ensures is { result ≡ wide self.now.version }
        ensures width { (result ≡ 4) ⊎ (result ≡ 8) }
    {
        if self.version == 5 { 8 } else { 4 }
    }
}
