// Parts of a line, to standard output.
use chart::Chart;
use refusals::Refusal;

// The descriptors of standard input and standard output.
const INPUT: i32 = 0;

pub const OUTPUT: i32 = 1;

// The most bytes of a line of standard input.
const LINE_MOST: usize = 100;

pub fn text(bytes: &[u8]) {
    io::write_all(OUTPUT, bytes);
}

pub fn end_of_line() {
    text(b"\n");
}

// The label of the next case.
pub fn label() {
    echo_line();
    text(b": ");
}

// The next heading, as a line of its own.
pub fn heading() {
    echo_line();
    end_of_line();
}

// Says the next line of standard input, without its line feed.
fn echo_line() {
    let mut byte = [0u8; 1];
    for _ in 0..LINE_MOST {
        if io::read_full(INPUT, &mut byte) == 0 || byte[0] == b'\n' {
            return;
        }
        text(&byte);
    }
}

// The text at the front of a buffer. `replies` and `printing` answer its size, which is never more than the buffer's.
pub fn front(out: &[u8], size: usize) {
    if size <= out.len() {
        text(&out[..size]);
    }
}

pub fn signed(z: i64) {
    let mut out = [0u8; 20];
    let size = printing::numbers::put_signed(&mut out, 0, z);
    front(&out, size);
}

// A name, and a number after it.
pub fn named(name: &[u8], n: u64) {
    text(name);
    let mut out = [0u8; 20];
    let size = printing::numbers::put_decimal(&mut out, 0, n);
    front(&out, size);
}

pub fn refusal(refusal: Refusal) {
    let mut out = [0u8; 64];
    let size = replies::put_refusal(&mut out, refusal.number());
    front(&out, size);
}

// A name, and a blank and each word after it.
pub fn words(name: &[u8], list: &[i16]) {
    text(name);
    let mut out = [0u8; 4096];
    let size = printing::numbers::put_words(&mut out, 0, list);
    front(&out, size);
}

pub fn status(chart: Chart) {
    named(b", status ", chart.status as u64);
    named(b" verdict ", chart.open_verdict as u64);
}

// Kind, lengths, status and open verdict.
pub fn numbers(chart: Chart) {
    named(b"chart kind ", chart.kind as u64);
    named(b" base ", chart.base_len as u64);
    named(b" series ", chart.series_len as u64);
    named(b" status ", chart.status as u64);
    named(b" verdict ", chart.open_verdict as u64);
    text(b"; ");
}
