//! A controller that serves every kind: its tables answer what each of the four asks, so its kind can be changed over one view.
#![tactic(auto)]

pub mod control;

pub use control::GenericControl;
