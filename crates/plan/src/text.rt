// The text of a row without what stands around it, and the command line in a row.
ghost use Rattle.std.specs.Prelude.{◌≡◌, ◌==◌};
ghost use Rattle.std.specs.List.{position};
ghost use Rattle.plan.specs.Text.{without_last, without_end, unpadded, without_bom, row_text, command_text};

// The text without its last byte, if that is `byte`.
fn without_last(text: &[u8], byte: u8) -> &[u8]
    ensures { result.now ≡ without_last byte text.now }
{
    match text {
        [front @ .., last] if *last == byte => front,
        _ => text,
    }
}

/// The row without its line feed, and without one carriage return right before that. A row without a line feed stays
/// whole (docs/TRIAL.md, "Rows, fields, numbers").
pub fn without_end(raw: &[u8]) -> &[u8]
    ensures { result.now ≡ without_end raw.now }
{
    match raw {
        [text @ .., b'\n'] => without_last(text, b'\r'),
        _ => raw,
    }
}

// The row without the separators at its end, which pad it.
fn without_padding(text: &[u8]) -> &[u8]
    ensures { result.now ≡ unpadded text.now }
{
    let mut row = text;
    while let [front @ .., b';'] = row {
        row = front;
    }
    row
}

// The row after a byte order mark, if it begins with one.
fn without_bom(text: &[u8]) -> &[u8]
    ensures { result.now ≡ without_bom text.now }
{
    match text {
        [0xEF, 0xBB, 0xBF, rest @ ..] => rest,
        _ => text,
    }
}

/// The text of a row without its line end and its padding. `raw` is the row as it stands in the file; `first` says that
/// it is the first row of the plan, where a byte order mark is passed over (docs/TRIAL.md, "Rows, fields, numbers").
pub fn row_text(raw: &[u8], first: bool) -> &[u8]
    ensures { result.now ≡ row_text raw.now first }
{
    let row = without_padding(without_end(raw));
    if first { without_bom(row) } else { row }
}

/// The place of the first byte `mark`, counted from 0, if there is one.
pub(crate) fn find(text: &[u8], mark: u8) -> Option<usize>
    ensures { result ≡ position (λ b. b == mark) text.now }
{
    text.iter().position(|byte| *byte == mark)
}

/// The command line in a `line` row: every byte after the first separator, further separators included; empty if there
/// is none. `row` is the row as `row_text` cuts it (docs/TRIAL.md, "Kinds of rows").
pub fn command_text(row: &[u8]) -> &[u8]
    ensures { result.now ≡ command_text row.now }
{
    match find(row, b';') {
        Some(end) => &row[end + 1..],
        None => &[],
    }
}
