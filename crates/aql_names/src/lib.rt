//! The names of positions in order, and where a name stands.
//!
//! `Names` is seen as the list of the names (`specs/Named`): `push` adds one position, `latest` is
//! the last position that has a name, and `latest_before` the last one below a given position. What
//! is kept is a map from each name to its positions, ascending (`specs/Index`), so that no call goes
//! over the positions: `push` and `latest` look into the map once, and `latest_before` searches the
//! positions of its name by halving.
//!
//! Read `specs/Named`, then `names`, then `specs/Index`.
#![tactic(auto)]

pub mod names;
