//! Tests of the sequencer with a rack that has one slot more than a program needs: a slot for `once`, whose controller counts its calls,
//! and when it is dropped.
#![tactic(auto)]

#[cfg(test)]
mod counting;
#[cfg(test)]
mod running;
