ghost use Rattle.std.specs.Prelude.{◌≡◌};
ghost use Rattle.nrca_array.specs.Packing.{bytes_for};
ghost use Rattle.nrca_array.specs.Kept.{width_bytes};

/// How many bytes each number of a list takes.
#[derive(Clone, Copy)]
pub(crate) enum Width {
    One,
    Two,
    Four,
    Eight,
    Sixteen,
}

impl Width {
    /// The number of bytes.
    pub(crate) fn bytes(self) -> usize
        ensures { result ≡ width_bytes self }
    {
        match self {
            Width::One => 1,
            Width::Two => 2,
            Width::Four => 4,
            Width::Eight => 8,
            Width::Sixteen => 16,
        }
    }

    #[tactic(auto, unfolding(crate::specs::Packing::bytes_for))]
    /// The least width in which the number fits.
    pub(crate) fn least(x: u128) -> Width
        ensures { width_bytes result ≡ bytes_for x }
    {
        if x < 0x100 {
            Width::One
        } else if x < 0x1_0000 {
            Width::Two
        } else if x < 0x1_0000_0000 {
            Width::Four
        } else if x < 0x1_0000_0000_0000_0000 {
            Width::Eight
        } else {
            Width::Sixteen
        }
    }
}
