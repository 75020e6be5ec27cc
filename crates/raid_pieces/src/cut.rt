//! Pieces of a text, as parts of it.

ghost use Rattle.std.specs.Prelude.{◌≡◌, ◌∷◌, ◌++◌, ◌<◌, ◌≤◌, ◌==◌, ℕ, [], List, MatchOption, length, true, false, slice_index, IfSome};
ghost use Rattle.raid_pieces.specs.Pieces.{pieces, pieces_behind, full_lines, unfinished};

/// How many bytes stand before the first mark.
fn piece_len(bytes: &[u8], mark: u8) -> usize
    ensures within { result ≤ length bytes.now }
    ensures piece { (k : ℕ) → k < result → (slice_index bytes.now k == mark) ≡ false }
    ensures behind { result < length bytes.now → (slice_index bytes.now result == mark) ≡ true }
{
    for (i, b) in bytes.iter().enumerate() {
        if *b == mark {
            return i;
        }
    }
    bytes.len()
}

/// The bytes before the first mark, and the rest: nothing, or the mark and what stands behind it.
pub fn first_piece(bytes: &[u8], mark: u8) -> (&[u8], &[u8])
    ensures piece { pieces mark bytes.now ≡ result.0.now ∷ pieces_behind mark result.1.now }
    ensures within { length result.1.now ≤ length bytes.now }
{
    bytes.split_at(piece_len(bytes, mark))
}

/// The piece behind the first mark, and the rest as of [`first_piece`]; None where there is no mark.
pub fn next_piece(rest: &[u8], mark: u8) -> Option<(&[u8], &[u8])>
    ensures piece { MatchOption result (pieces_behind mark rest.now ≡ []) (λ x. pieces_behind mark rest.now ≡ x.0.now ∷ pieces_behind mark x.1.now) }
    ensures shorter { IfSome result (λ x. length x.1.now < length rest.now) }
{
    let before = piece_len(rest, mark);
    if before == rest.len() {
        return None;
    }
    Some(first_piece(&rest[before + 1..], mark))
}

/// The first line that ends with a line feed, without it, and what stands behind it; None where there is no
/// line feed.
pub fn next_line(text: &[u8]) -> Option<(&[u8], &[u8])>
    ensures line { MatchOption result (full_lines text.now ≡ []) (λ x. full_lines text.now ≡ x.0.now ∷ full_lines x.1.now) }
    ensures bytes { IfSome result (λ x. text.now ≡ x.0.now ++ 10 ∷ x.1.now) }
    ensures unfinished { MatchOption result (unfinished text.now ≡ text.now) (λ x. unfinished x.1.now ≡ unfinished text.now) }
{
    let end = piece_len(text, b'\n');
    if end == text.len() {
        return None;
    }
    Some((&text[..end], &text[end + 1..]))
}
