//! Tests of trees, tokens, the parser, equations between types, inference, translation, printed texts, and scripts that are
//! prepared.
#![tactic(auto)]

#[cfg(test)]
mod tests;
