//! The start term of a query: the core term that it is translated to, by one case for each form, and its laws.
//! Read `specs/Start.antt`, the definition, and then `specs/Laws.antt`, what is proved of it; each law is the contract of a
//! function of `laws`.
#![tactic(auto)]

pub mod laws;
