//! Tests of the controllers and of the rack: verdicts and answers on views worked out by hand, and long runs.
//!
//! A play is a line of words. `b1` notes the Begin of t1, `r1x` its Read of x, `c1xy` its Commit of x and y and `a1` its Abort, each
//! with the next number. `?r1x` and `?c1xy` ask for a verdict and note nothing, `<1` asks whether t1 is backward, and `/12x` whether t1
//! blocks t2 from writing x. `=l`, `=s`, `=v` and `=g` set the kind to Lock, Stamp, Valid or Graph. The answers are a letter each: `g`, `w`, `l`, `i` and `c` for Grant, Wait, Late, Invalid and Cycle, `y` and
//! `n` for yes and no.
#![tactic(auto)]

#[cfg(test)]
mod long;
#[cfg(test)]
mod play;
#[cfg(test)]
mod racks;
#[cfg(test)]
mod tests;
