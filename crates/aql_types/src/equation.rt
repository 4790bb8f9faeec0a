//! Equations between types.

use aql_ty::ty::Ty;

/// Two types that are to become one.
#[derive(Drop)]
pub struct Equation {
    pub left: Ty,
    pub right: Ty,
}
