//! Tests of core terms: their evaluation, the rules that rewrite them, plans, contexts, shapes, the error analysis, and forms without arrays.
#![tactic(auto)]

#[cfg(test)]
mod tests;
