//! What is read of a file.

ghost use Rattle.std.specs.Prelude.{◌≡◌, ◌^◌, ◌<◌};
ghost use Rattle.cdf_header.specs.Format.{type_size};

/// What is read: numbers of a type and so many bytes, before an end; as pairs of whether they are
/// below 0 and how far from 0, or as naturals.
#[derive(Clone, Copy)]
pub(crate) struct CellFormat {
    pub kind: u32,
    pub size: u64,
    pub signed: bool,
    pub end: u64,
    ghost is: { size ≡ type_size kind },
    ghost small: { end < 2 ^ 64 },
}

impl CellFormat {
    /// The same before another end.
    pub(crate) fn with_end(self, end: u64) -> CellFormat
        ensures kind { result.kind ≡ self.kind }
        ensures size { result.size ≡ self.size }
        ensures signed { result.signed ≡ self.signed }
        ensures end { result.end ≡ end }
    {
        CellFormat {
            kind: self.kind,
            size: self.size,
            signed: self.signed,
            end,
        }
    }
}
