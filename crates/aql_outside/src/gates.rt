/// What is called at the start of each piece of work that runs beside others, with its number.
/// It has no meaning of its own: an answer never depends on it.
pub trait Gate: Sync {
    fn pass(&self, piece: u64);
}

/// The gate that lets each piece pass at once.
#[derive(Clone, Copy, Debug, Default)]
pub struct FreeGate;

impl Gate for FreeGate {
    fn pass(&self, piece: u64) {
        let _ = piece;
    }
}
