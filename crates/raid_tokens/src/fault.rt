ghost use Rattle.std.specs.Prelude.{◌≡◌, codes};
ghost use Rattle.raid_tokens.specs.Fault as words;

use thiserror::Error;

/// What can be wrong with a workload text. Of the faults of a text the first is told, line by line and in a
/// line from left to right.
#[derive(Clone, Copy, Debug, PartialEq, Eq, Error)]
pub enum Fault {
    /// The first used line is neither `workload 1` nor `workload 2`.
    #[error("the first line is neither `workload 1` nor `workload 2`")]
    First,
    /// A word is missing, is one too many, or isn't of the form that its place wants.
    #[error("a word is missing, too many, or of another form")]
    Token,
    /// A number of the right form is outside its range.
    #[error("a number is outside its range")]
    Range,
    /// A site's number is not that of a site.
    #[error("there is no such site")]
    Site,
    /// A statement names an item that no item line has.
    #[error("there is no such item")]
    Item,
    /// An item line repeats a name of an earlier one, or names a site twice.
    #[error("a name or a site comes twice")]
    Twice,
    /// An item line ends after `at`.
    #[error("an item has no holder")]
    NoCopy,
    /// A line's first word isn't allowed at its place, or a kind, structure or method is unknown.
    #[error("the word is not known here")]
    Word,
    /// The 1,025th item, 2,001st program, 33rd statement of a program, 65th switch, or 65th stop or return.
    #[error("there are too many of these")]
    Many,
    /// A switch `by generic` in a native workload.
    #[error("a native workload has no generic switch")]
    Generic,
    /// A switch to the kind of the switch before it, or to the opening kind where there is none before.
    #[error("the switch is to the same kind")]
    Same,
    /// A switch's trigger is less than that of the switch before, or likewise for stops and returns.
    #[error("the trigger is less than the one before")]
    Order,
    /// A stop of a site that is stopped, or a return of one that isn't.
    #[error("the site is in that state already")]
    State,
    /// The text ends before `done`; the line is one past the last.
    #[error("the text ends before `done`")]
    End,
}

impl Fault {
    /// The fault's number, 1 to 14.
    pub fn number(self) -> u8
        ensures { result ≡ words.number self }
    {
        match self {
            Fault::First => 1,
            Fault::Token => 2,
            Fault::Range => 3,
            Fault::Site => 4,
            Fault::Item => 5,
            Fault::Twice => 6,
            Fault::NoCopy => 7,
            Fault::Word => 8,
            Fault::Many => 9,
            Fault::Generic => 10,
            Fault::Same => 11,
            Fault::Order => 12,
            Fault::State => 13,
            Fault::End => 14,
        }
    }

    /// The one word that refusal lines have for the fault.
    pub fn word(self) -> &'static [u8]
        ensures { result.now ≡ words.word self }
    {
        match self {
            Fault::First => b"first",
            Fault::Token => b"token",
            Fault::Range => b"range",
            Fault::Site => b"site",
            Fault::Item => b"item",
            Fault::Twice => b"twice",
            Fault::NoCopy => b"nocopy",
            Fault::Word => b"word",
            Fault::Many => b"many",
            Fault::Generic => b"generic",
            Fault::Same => b"same",
            Fault::Order => b"order",
            Fault::State => b"state",
            Fault::End => b"end",
        }
    }
}
