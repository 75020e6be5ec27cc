//! Tests of the world on threads, at runs worked out by hand, with real controllers. Each call that can refuse memory succeeds where there is
//! some.
#![tactic(auto)]

#[cfg(test)]
mod gates;
#[cfg(test)]
mod tests;
pub mod texts;
