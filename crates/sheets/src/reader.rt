// The reader of a text.
ghost use Rattle.std.specs.Prelude.{◌≡◌, ◌+◌, ◌≤◌, length, take};
ghost use Rattle.sheets.specs.Cutting.{line_after, column_after};

pub mod cutting;

/// Goes over a text piece by piece, and copies nothing.
#[derive(Drop, Debug)]
pub struct Reader<'a> {
    text: &'a [u8],
    // How many bytes are passed.
    position: usize,
    // Where the next byte stands.
    line: u64,
    column: u64,
    ghost inside: { position ≤ length text.now },
    ghost right_line: { line ≡ line_after (take position text.now) },
    ghost right_column: { column ≡ column_after (take position text.now) },
    ghost few_lines: { line ≤ position + 1 },
    ghost few_columns: { column ≤ position + 1 },
}
