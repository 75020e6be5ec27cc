//! What holds of every history that the sequencer places, whatever letters it hears.
//!
//! A legal history is what a run places. The sequencer alone, hearing any letters at all, places more: it takes
//! their word for what a program wants, which stops and returns are due, and which sessions there were.
//! `specs/Placed` says what it places; the laws say what its tables and controllers may count on there. The
//! functions do nothing: each is a law, and its contract says it.
#![tactic(auto)]

mod hearing;
mod history;
mod views;

pub use hearing::{
    forced_entries_run_out, hearing_keeps_placed, openings_are_placed, settling_goes_step_by_step,
    settling_keeps_placed,
};
pub use history::{
    legal_are_placed, placeable_may_follow, placeable_names_are_known, placed_are_in_order,
    placed_are_of_the_workload, placed_are_serial, placed_push, running_lists_are_one,
    waiting_requests_turn,
};
pub use views::{
    asks_fit_placed_views, controllers_may_note, old_views_have_no_end_of_who_runs,
    old_views_show_whom_a_switch_aborts, placed_views_are_in_order,
    placed_views_show_who_is_backward, switch_ends_leave_the_new_one, switches_turn_the_old_one,
    views_grow,
};
