//! Tests of what is found of reports: histories that are legal, or up to an entry, and reports that fail in just one way.
#![tactic(auto)]

#[cfg(test)]
mod found;
