// The fields of a line: the longest runs of bytes that are not blanks.
ghost use Rattle.std.specs.Prelude.{◌≡◌, ◌≤◌, length};
ghost use Rattle.parsing.specs.Bytes.{same_bytes};
ghost use Rattle.parsing.specs.Fields.{is_blank, IsFirstField, IsSplit, SplitAt, AfterBlanks, AfterField, IsWithoutReturn};

// The place of a field: its first byte, and the byte after its last.
#[derive(Clone, Copy)]
pub struct Field {
    pub start: usize,
    pub end: usize,
}

// The first field. If there is none, start and end are the same.
pub fn first_field(text: &[u8]) -> Field
    ensures { IsFirstField text.now result.start result.end }
{
    let start = after_blanks(text);
    let end = after_field(text, start);
    Field { start, end }
}

// The first field, and what follows it. If there is no field, both are empty.
pub fn split_field(text: &[u8]) -> (&[u8], &[u8])
    ensures places { SplitAt text.now result.0.now result.1.now }
    ensures split { IsSplit text.now result.0.now result.1.now }
{
    let field = first_field(text);
    (&text[field.start..field.end], &text[field.end..])
}

// How many bytes a line has without a carriage return at its end.
pub fn without_return(line: &[u8]) -> usize
    ensures { IsWithoutReturn line.now result }
{
    match line {
        [front @ .., b'\r'] => front.len(),
        _ => line.len(),
    }
}

#[tactic(auto, using(crate::proofs::Tests::compared))]
pub fn same_bytes(a: &[u8], b: &[u8]) -> bool
    ensures { result ≡ same_bytes a.now b.now }
{
    a == b
}

// The place of the first byte that is not a blank, or the end of the text.
fn after_blanks(text: &[u8]) -> usize
    ensures { AfterBlanks text.now result }
{
    text.iter()
        .position(|b| !is_blank(*b))
        .unwrap_or(text.len())
}

// The place of the first blank from a byte on, or the end of the text.
fn after_field(text: &[u8], start: usize) -> usize
    requires { start ≤ length text.now }
    ensures { AfterField text.now start result }
{
    let rest = &text[start..];
    start + rest.iter().position(|b| is_blank(*b)).unwrap_or(rest.len())
}

// A space or a tab.
#[tactic(auto, unfolding(crate::specs::Fields::is_blank))]
fn is_blank(b: u8) -> bool
    ensures { result ≡ is_blank b }
{
    matches!(b, b' ' | b'\t')
}
