ghost use Rattle.std.specs.Prelude.{◌≡◌, List, Some, None, All};
ghost use Rattle.raid_base.specs.declared.names.Item.{Item};
ghost use Rattle.raid_program.specs.declared.program.Statement.{Statement};
ghost use Rattle.raid_program.specs.declared.program.Want.TheVariants.{Read};
ghost use Rattle.raid_program.specs.Run.{Answers, Agree, given, has_asked, outcome_of};

/// What a run reads are the answers: each of its reads has the value that the answers give the item, and it
/// ends with the wish for an item only where they give that item none.
#[tactic(auto, using(crate::proofs::Asked::reads_told, crate::proofs::Asked::end_told))]
pub fn reads_are_answers()
    ensures reads { (p : List Statement) (a : Answers) → All (λ read. a read.0 ≡ Some read.1) (outcome_of p a).reads }
    ensures wish { (p : List Statement) (a : Answers) (x : Item) → (outcome_of p a).end ≡ Read x → a x ≡ None }
{}

/// A run depends on nothing but the answers that it asks for: other answers that give the same for each item
/// that it asked for, and for an item that it ends with the wish for none, have the same end, reads and writes.
#[tactic(auto, using(crate::proofs::Asked::same_run))]
pub fn asked_answers_decide()
    ensures { (p : List Statement) (a b : Answers) → Agree (has_asked (outcome_of p a)) b a → outcome_of p b ≡ outcome_of p a }
{}

/// So a run's reads are all that is needed to run it again.
#[tactic(auto, using(crate::proofs::Tables::replays))]
pub fn reads_replay()
    ensures { (p : List Statement) (a : Answers) → outcome_of p (given (outcome_of p a).reads) ≡ outcome_of p a }
{}
