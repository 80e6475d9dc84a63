// The front and the end of a text.
ghost use Rattle.std.specs.Prelude.{◌≡◌, ◌≤◌, length};
ghost use Rattle.parsing.specs.Text.{begins, ends, IsWithoutMark};

#[tactic(auto, using(crate::proofs::Tests::compared_back), unfolding(crate::specs::Text::begins))]
pub fn begins_with(text: &[u8], front: &[u8]) -> bool
    ensures { result ≡ begins text.now front.now }
{
    text.starts_with(front)
}

#[tactic(auto, using(crate::proofs::Tests::compared_back), unfolding(crate::specs::Text::ends))]
pub fn ends_with(text: &[u8], end: &[u8]) -> bool
    ensures { result ≡ ends text.now end.now }
{
    text.ends_with(end)
}

// How many bytes at the front of a line are a byte order mark: 3 or 0.
pub fn mark_size(line: &[u8]) -> usize
    ensures { IsWithoutMark line.now result }
{
    if begins_with(line, b"\xEF\xBB\xBF") {
        return 3;
    }
    0
}
