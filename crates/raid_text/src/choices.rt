ghost use Rattle.std.specs.Prelude.{◌≡◌};
ghost use Rattle.raid_scan.specs.Words.{words_of};
ghost use Rattle.raid_tokens.specs.Reading.{Tells};
ghost use Rattle.raid_text.specs.Choices.{kind_of, structure_of, method_of, kind_at, structure_at, method_at};

use raid_base::{Kind, Method, Structure};
use raid_scan::next_word;
use raid_tokens::{Fault, is_word};

#[tactic(auto, unfolding(crate::specs::Choices::kind_of))]
fn kind_of(word: &[u8]) -> Option<Kind>
    ensures { result ≡ kind_of word.now }
{
    if is_word(word, b"lock") {
        Some(Kind::Lock)
    } else if is_word(word, b"stamp") {
        Some(Kind::Stamp)
    } else if is_word(word, b"valid") {
        Some(Kind::Valid)
    } else if is_word(word, b"graph") {
        Some(Kind::Graph)
    } else {
        None
    }
}

#[tactic(auto, unfolding(crate::specs::Choices::structure_of))]
fn structure_of(word: &[u8]) -> Option<Structure>
    ensures { result ≡ structure_of word.now }
{
    if is_word(word, b"native") {
        Some(Structure::Native)
    } else if is_word(word, b"generic") {
        Some(Structure::GenericState)
    } else {
        None
    }
}

#[tactic(auto, unfolding(crate::specs::Choices::method_of))]
fn method_of(word: &[u8]) -> Option<Method>
    ensures { result ≡ method_of word.now }
{
    if is_word(word, b"generic") {
        Some(Method::Generic)
    } else if is_word(word, b"convert") {
        Some(Method::Convert)
    } else if is_word(word, b"suffix") {
        Some(Method::Suffix)
    } else {
        None
    }
}

/// The kind that stands next.
#[tactic(auto, unfolding(crate::specs::Choices::kind_at))]
pub fn take_kind(line: &[u8]) -> Result<(Kind, &[u8]), Fault>
    ensures { Tells (λ x. (x.0, words_of x.1.now)) result (kind_at (words_of line.now)) }
{
    let (word, rest) = next_word(line).ok_or(Fault::Token)?;
    Ok((kind_of(word).ok_or(Fault::Word)?, rest))
}

/// The structure that stands next.
#[tactic(auto, unfolding(crate::specs::Choices::structure_at))]
pub fn take_structure(line: &[u8]) -> Result<(Structure, &[u8]), Fault>
    ensures { Tells (λ x. (x.0, words_of x.1.now)) result (structure_at (words_of line.now)) }
{
    let (word, rest) = next_word(line).ok_or(Fault::Token)?;
    Ok((structure_of(word).ok_or(Fault::Word)?, rest))
}

/// The method that stands next.
#[tactic(auto, unfolding(crate::specs::Choices::method_at))]
pub fn take_method(line: &[u8]) -> Result<(Method, &[u8]), Fault>
    ensures { Tells (λ x. (x.0, words_of x.1.now)) result (method_at (words_of line.now)) }
{
    let (word, rest) = next_word(line).ok_or(Fault::Token)?;
    Ok((method_of(word).ok_or(Fault::Word)?, rest))
}
