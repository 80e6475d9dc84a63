// The exit status of an answer, for scripts: only 0 lets a batch go.
ghost use Rattle.std.specs.Prelude.{◌≡◌};
ghost use Rattle.outcomes.specs.Status.{holds_by_end, holds_batch, status_of};

use parsing::text::{begins_with, ends_with};

// 3 an error, 2 a refusal, 1 hold the batch, 0 otherwise.
pub fn exit_status(answer: &[u8]) -> u8
    ensures { result ≡ status_of answer.now }
{
    if begins_with(answer, b"error") {
        return 3;
    }
    if begins_with(answer, b"refused") {
        return 2;
    }
    if holds_batch(answer) {
        return 1;
    }
    0
}

// A word at the front, and at the end a verdict other than 0 or a failed reanalysis.
fn holds_batch(answer: &[u8]) -> bool
    ensures { result ≡ holds_batch answer.now }
{
    begins_with(answer, b"word ") & holds_by_end(answer)
}

fn holds_by_end(answer: &[u8]) -> bool
    ensures { result ≡ holds_by_end answer.now }
{
    ends_with(answer, b" failed\n")
        | ends_with(answer, b" verdict 1\n")
        | ends_with(answer, b" verdict 2\n")
        | ends_with(answer, b" verdict 3\n")
        | ends_with(answer, b" verdict 4\n")
}
