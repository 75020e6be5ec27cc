ghost use Rattle.std.specs.Prelude.{◌≡◌, ◌==◌, if◌then◌else◌};
ghost use Rattle.raid_base.specs.declared.entry.Answer.TheVariants as answers;

use raid_base::Answer;

/// What a site answers to a Prepare that names this session, its own session being the other: No with both numbers exactly where
/// they differ.
pub fn answer(named: u32, own: u32) -> Answer
    ensures { result ≡ (if named == own then answers.Yes else answers.No named own) }
{
    if named == own {
        Answer::Yes
    } else {
        Answer::No { named, own }
    }
}
