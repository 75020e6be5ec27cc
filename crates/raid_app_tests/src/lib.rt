//! Tests of the one call that the program makes, with real controllers, from the words and the bytes of a text to the bytes that are
//! written: runs worked out by hand, and some whose reports are the reference model's.
#![tactic(auto)]

#[cfg(test)]
mod advising;
#[cfg(test)]
mod extremes;
#[cfg(test)]
mod faults;
#[cfg(test)]
mod judging;
#[cfg(test)]
mod large;
#[cfg(test)]
mod making;
#[cfg(test)]
mod meeting;
#[cfg(test)]
mod refusals;
#[cfg(test)]
mod reports;
#[cfg(test)]
mod texts;
#[cfg(test)]
mod told;
#[cfg(test)]
mod words;
