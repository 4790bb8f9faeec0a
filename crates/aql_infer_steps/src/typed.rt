//! The schemes of a script's declarations.

use aql_ty::ty::Scheme;

/// The schemes of declarations, one a position.
#[derive(Drop)]
pub struct Typed {
    pub items: Vec<Scheme>,
}
