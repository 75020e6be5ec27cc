//! The lines of views, for programs that try parts on views: the words of a line, and the entries that lines
//! tell (tests/make_views.py and tests/make_control_views.py have the form of the lines).
#![tactic(auto)]

pub mod entries;
pub mod words;
