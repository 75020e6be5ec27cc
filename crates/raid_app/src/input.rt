//! A workload's text and a report's, in one input.
ghost use Rattle.std.specs.Prelude.{◌≡◌, ◌≤◌, ◌∷◌, List, ℕ, length, drop};
ghost use Rattle.raid_pieces.specs.Pieces.{pieces};
ghost use Rattle.raid_app.specs.Input.{begins_report, is_head, report_text, workload_text};

use raid_pieces::first_piece;

/// Whether a report begins with this line.
fn is_head(line: &[u8]) -> bool
    ensures { result ≡ is_head line.now }
{
    line == b"report 1".as_slice() || line == b"report 2".as_slice()
}

/// Whether a report begins with the first line of the text.
fn begins_report(text: &[u8]) -> bool
    ensures { result ≡ begins_report (pieces 10 text.now) }
{
    let (line, _) = first_piece(text, b'\n');
    is_head(line)
}

/// How many bytes stand before the report.
fn report_start(input: &[u8]) -> usize
    ensures within { result ≤ length input.now }
    ensures report { drop result input.now ≡ report_text input.now }
{
    let mut is_at_line = true;
    for (place, byte) in input.iter().enumerate() {
        if is_at_line && begins_report(&input[place..]) {
            return place;
        }
        is_at_line = *byte == b'\n';
    }
    input.len()
}

/// The workload's text, and the report's: it begins with the first line that is exactly `report 1` or `report 2`, and is empty where
/// there is none.
pub fn split(input: &[u8]) -> (&[u8], &[u8])
    ensures workload { result.0.now ≡ workload_text input.now }
    ensures report { result.1.now ≡ report_text input.now }
    ensures within { length result.0.now ≤ length input.now }
    ensures behind { length result.1.now ≤ length input.now }
{
    input.split_at(report_start(input))
}
