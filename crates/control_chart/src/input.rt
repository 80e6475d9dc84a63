// Commands on standard input, one to a line.
ghost use Rattle.std.specs.Prelude.{◌≡◌, ◌+◌, ◌≤◌, true, length, drop, ltb};
ghost use Rattle.rules.specs.Choice.{choose};
ghost use Rattle.control_chart.specs.Input.{after_answer, with_part, Keeps, HasRoom, CanTake, GivesAtEnd, IsAfter, EndsLine, Answers};
ghost use Rattle.control_chart.specs.Input.{Came, Taken, IsInputRead, IsAtEnd, to_line_feed};

use crate::say::{failure, say};
use chart::{Chart, zero_chart};
use commands::{ANSWER_MOST, LINE_MOST, answer_line};
use outcomes::status::exit_status;
use parsing::fields::without_return;
use parsing::text::mark_size;
use printing::put_text;
use std::io::{Error, Read};
use std::ops::ControlFlow;
use std::ops::ControlFlow::{Break, Continue};

// `line_room` in `specs/Input`.
pub const LINE_ROOM: usize = LINE_MOST + 5;

// More reads than any input needs.
const READS: u64 = 1 << 63;

// The most bytes of one read.
const READ_ROOM: usize = 4096;

// What the program holds after a part of the input.
#[derive(Drop)]
pub struct Pending {
    pub chart: Chart,
    // How many bytes the buffer holds of a line that has not ended.
    pub len: usize,
    // The highest exit status of the answers; 3 if a read failed or an answer was not written.
    pub status: u8,
    // Whether every answer was written. If not, no further command is done.
    pub told: bool,
}

// Does the commands on standard input, from the chart of zeros. Answers what the program holds at the end of the input.
pub fn commands_from_input(rt: HostRuntime) -> Pending
    ensures { IsAtEnd result }
{
    let mut line = [0u8; LINE_ROOM];
    let pending = Pending {
        chart: zero_chart(),
        len: 0,
        status: 0,
        told: true,
    };
    let last = take_all(rt, pending, &mut line);
    end_input(rt, last, &line)
}

// Reads to the end of the input. No contract says that the input ends, so the loop counts its reads.
fn take_all(rt: HostRuntime, pending: Pending, line: &mut [u8]) -> Pending
    requires { CanTake pending line.old }
    ensures { Came pending line.old result line.new }
{
    let mut kept = pending;
    for _ in 0..READS {
        match read_some(rt, kept, line) {
            Continue(pending) => kept = pending,
            Break(last) => return last,
        }
    }
    kept
}

// Answers a last line that has no line feed.
fn end_input(rt: HostRuntime, pending: Pending, line: &[u8]) -> Pending
    requires { HasRoom pending line.now }
    ensures { GivesAtEnd pending line.now result }
{
    let n = pending.len;
    if n == 0 {
        return pending;
    }
    end_line(rt, pending, &line[..n])
}

// A read has failed. A line that has begun is dropped, because its end is not known.
fn read_failed(rt: HostRuntime, pending: Pending, reason: Error) -> Pending
    ensures { result ≡ record { chart = pending.chart; len = 0; status = 3; told = true } }
{
    let chart = pending.chart;
    let status = failure(
        rt,
        b"standard input",
        b"it cannot be read, and the rest was not done",
        reason,
    );
    Pending {
        chart,
        len: 0,
        status,
        told: true,
    }
}

// One read: what is pending after it, and whether to go on.
fn read_some(rt: HostRuntime, pending: Pending, line: &mut [u8]) -> ControlFlow<Pending, Pending>
    requires { CanTake pending line.old }
    ensures { IsInputRead pending line.old result line.new }
{
    let mut bytes = [0u8; READ_ROOM];
    let mut input = rt.stdin();
    match input.read(&mut bytes) {
        Ok(n) => {
            let after = take_bytes(rt, pending, &bytes[..n], line);
            if 0 < n && after.told {
                return Continue(after);
            }
            Break(after)
        }
        Err(reason) => Break(read_failed(rt, pending, reason)),
    }
}

// Takes bytes that were read. Answers each line that ends in them, and keeps the rest. Stops after an answer that was not written.
// The place moves by the length of each part. A last part without a line feed is kept.
fn take_bytes(rt: HostRuntime, pending: Pending, bytes: &[u8], line: &mut [u8]) -> Pending
    requires { CanTake pending line.old }
    ensures { Taken bytes.now pending line.old result line.new }
{
    let mut kept = pending;
    let mut at: usize = 0;
    while at < bytes.len() {
        let end = line_end(bytes, at);
        kept = take_part(rt, kept, &bytes[at..end], end < bytes.len(), line);
        at = after_line_feed(bytes, end);
        if !kept.told {
            return kept;
        }
    }
    kept
}

// The place of the first line feed from `at` on; if there is none, the end of the bytes.
fn line_end(bytes: &[u8], at: usize) -> usize
    requires { at ≤ length bytes.now }
    ensures place { result ≡ at + to_line_feed (drop at bytes.now) }
    ensures within { result ≤ length bytes.now }
{
    at + to_line_feed(&bytes[at..])
}

// How many bytes there are before the first line feed; if there is none, all of them.
fn to_line_feed(bytes: &[u8]) -> usize
    ensures place { result ≡ to_line_feed bytes.now }
    ensures within { result ≤ length bytes.now }
{
    bytes
        .iter()
        .position(|byte| *byte == b'\n')
        .unwrap_or(bytes.len())
}

// The place after the line feed; if there is none, the end of the bytes.
fn after_line_feed(bytes: &[u8], end: usize) -> usize
    ensures { result ≡ choose (ltb end (length bytes.now)) (end + 1) end }
{
    if end < bytes.len() { end + 1 } else { end }
}

// Takes a part of a line. `ends` says whether a line feed follows it.
fn take_part(rt: HostRuntime, pending: Pending, part: &[u8], ends: bool, line: &mut [u8]) -> Pending
    requires { CanTake pending line.old }
    ensures { Keeps (λ s. with_part s part.now ends) pending line.old result line.new }
{
    let chart = pending.chart;
    let status = pending.status;
    let len = put_text(line, pending.len, part);
    if !ends {
        return Pending {
            chart,
            len,
            status,
            told: true,
        };
    }
    end_line(rt, pending, &line[..len])
}

// Answers a line that has ended. A carriage return at its end and a byte order mark at its front are passed over.
fn end_line(rt: HostRuntime, pending: Pending, line: &[u8]) -> Pending
    ensures { EndsLine pending line.now result }
{
    let n = without_return(line);
    let text = &line[..n];
    let at = mark_size(text);
    answered(rt, pending, &text[at..])
}

// Answers a line, and begins the next.
fn answered(rt: HostRuntime, pending: Pending, line: &[u8]) -> Pending
    ensures { Answers pending line.now result }
{
    let mut out = [0u8; ANSWER_MOST];
    let answer = answer_line(pending.chart, line, &mut out);
    let chart = answer.chart;
    let size = answer.size;
    after_answer(rt, chart, pending.status, &out[..size])
}

// Says an answer. The chart is the one after the command, and the status is the one before it.
fn after_answer(rt: HostRuntime, chart: Chart, earlier: u8, text: &[u8]) -> Pending
    ensures { IsAfter (after_answer chart earlier text.now) result }
{
    match say(rt, text) {
        Ok(()) => {
            let status = earlier.max(exit_status(text));
            Pending {
                chart,
                len: 0,
                status,
                told: true,
            }
        }
        Err(reason) => {
            let status = failure(
                rt,
                b"standard output",
                b"it cannot be written, and no further command was done",
                reason,
            );
            Pending {
                chart,
                len: 0,
                status,
                told: false,
            }
        }
    }
}
