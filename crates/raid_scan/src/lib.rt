//! Lines and words of a text, as parts of it.
#![tactic(auto)]

ghost use Rattle.std.specs.Prelude.{◌≡◌, ◌∷◌, ◌<◌, ◌≤◌, ℕ, [], List, MatchOption, length, true, false, slice_index, IfSome};
ghost use Rattle.raid_scan.specs.Words.{is_separator, is_line_feed, lines_of, words_of};

fn is_separator(b: u8) -> bool
    ensures { result ≡ is_separator b }
{
    b == b' ' || b == b'\t' || b == b'\r'
}

/// What is left of a line behind the separators at its front.
fn skip_separators(line: &[u8]) -> &[u8]
    ensures words { words_of result.now ≡ words_of line.now }
    ensures front { 0 < length result.now → is_separator (slice_index result.now 0) ≡ false }
{
    let mut i = 0;
    while i < line.len() {
        if !is_separator(line[i]) {
            break;
        }
        i += 1;
    }
    &line[i..]
}

/// How many bytes stand before the first separator.
fn word_len(line: &[u8]) -> usize
    ensures within { result ≤ length line.now }
    ensures word { (k : ℕ) → k < result → is_separator (slice_index line.now k) ≡ false }
    ensures behind { result < length line.now → is_separator (slice_index line.now result) ≡ true }
{
    for (i, b) in line.iter().enumerate() {
        if is_separator(*b) {
            return i;
        }
    }
    line.len()
}

/// The first word of a line, and what stands behind it.
pub fn next_word(line: &[u8]) -> Option<(&[u8], &[u8])>
    ensures { MatchOption result (words_of line.now ≡ []) (λ x. words_of line.now ≡ x.0.now ∷ words_of x.1.now) }
{
    let line = skip_separators(line);
    if line.is_empty() {
        return None;
    }
    Some(line.split_at(word_len(line)))
}

/// How many bytes stand before the first line feed.
fn line_len(text: &[u8]) -> usize
    ensures within { result ≤ length text.now }
    ensures line { (k : ℕ) → k < result → is_line_feed (slice_index text.now k) ≡ false }
    ensures behind { result < length text.now → is_line_feed (slice_index text.now result) ≡ true }
{
    for (i, b) in text.iter().enumerate() {
        if *b == b'\n' {
            return i;
        }
    }
    text.len()
}

/// The first line of a text, and the lines behind it.
pub fn next_line(text: &[u8]) -> Option<(&[u8], &[u8])>
    ensures line { MatchOption result (lines_of text.now ≡ []) (λ x. lines_of text.now ≡ x.0.now ∷ lines_of x.1.now) }
    ensures shorter { IfSome result (λ x. length x.1.now < length text.now) }
{
    if text.is_empty() {
        return None;
    }
    let end = line_len(text);
    if end < text.len() {
        Some((&text[..end], &text[end + 1..]))
    } else {
        Some((text, &text[end..]))
    }
}
