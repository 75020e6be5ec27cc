//! That programs make what is told of them, in every run: each commit request and each own end is what the program makes of the reads that
//! it tells.
//!
//! `specs/Made` says it of entries, of letters, and of the programs that run at a site. It needs no knowledge of who wrote the values that
//! were read: whether they are those of the last writers is said nowhere here. The functions do nothing: each is a law, and its contract
//! says it.
#![tactic(auto)]

ghost use Rattle.std.specs.Prelude.{ℕ, List};
ghost use Rattle.raid_workload.specs.declared.workload.Workload.{Workload};
ghost use Rattle.raid_message.specs.declared.letter.Letter.{Letter};
ghost use Rattle.raid_message.specs.declared.letter.Pick.{Pick};
ghost use Rattle.raid_steps.specs.State.{Sequencer, SiteState};
ghost use Rattle.raid_steps.specs.Sequencer.{hear_sequencer};
ghost use Rattle.raid_steps.specs.Site.{hear_site};
ghost use Rattle.raid_steps.specs.World.{run};
ghost use Rattle.raid_made.specs.Made.{IsMadeMessage, SentMade, AreMade, EntriesMade};

/// Where what is in preparation at a site is what the programs make, it stays so with any letter that the site hears, and what the site asks
/// for, or tells of a program's own end, is what the program makes.
#[tactic(auto, using(crate::proofs::Sites::site_made, crate::proofs::Sites::site_sends))]
pub fn sites_ask_what_programs_make()
    ensures keeps { (w : Workload) (state : SiteState) (from : ℕ) (letter : Letter) → AreMade w state.running → AreMade w (hear_site w state from letter).state.running }
    ensures sends { (w : Workload) (state : SiteState) (from : ℕ) (letter : Letter) → AreMade w state.running → SentMade w (hear_site w state from letter).outs }
{}

/// Where all entries tell what programs make, and the letter does, so do all entries after the sequencer has heard it: it tells what it was
/// asked, at once or when a waiting request is answered, and nothing else of programs.
#[tactic(auto, using(crate::proofs::Placing::sequencer_made))]
pub fn sequencers_place_what_was_asked()
    ensures { (w : Workload) (s : Sequencer) (from : ℕ) (letter : Letter) → EntriesMade w s.history → IsMadeMessage w letter.message → EntriesMade w (hear_sequencer w s from letter).state.history }
{}

/// Whatever steps were taken: each entry tells what its program makes.
#[tactic(auto, using(crate::proofs::Runs::runs_made))]
pub fn runs_are_made()
    ensures { (w : Workload) (schedule : List Pick) → EntriesMade w (run w schedule).servers.sequencer.history }
{}
