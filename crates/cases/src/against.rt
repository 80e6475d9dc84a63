// Compares words with the lines of charts, by the lines' doubles: at the edges of the limits, and on charts without a lower limit or
// without lines. The clients of the C interface compare words with the limits of more charts.
use crate::say;
use chart::Chart;

pub fn words_against_lines(a: Chart) {
    say::heading();
    let words = [9699, 9700, 9799, 9800, 10000, 10200, 10201, 10300, 10301];
    each_word(a, &words);
    base_c();
    // A lower warning limit just below 0.
    let base = [0, 0, 1, 2, 2, 2, 2, 2, 2, 3, 3, 3, 3, 3, 4, 4, 4, 4, 4];
    built(3, &base, &[-2, -1, 0, 5, 6]);
    base_k();
    each_word(chart::zero_chart(), &[0]);
}

// Document 01's base C.
fn base_c() {
    let mut base = [10000; 15];
    crate::fill(&mut base, 7, 10001);
    built(2, &base, &[9998, 9999, 10000, 10001, 10002, 10003]);
}

// Base K, of kind 1, which has no lower limits: mean 1000, S 100.
fn base_k() {
    let mut base = [900; 15];
    crate::fill(&mut base, 7, 1100);
    base[14] = 1000;
    built(1, &base, &[0, 700, 799, 1200, 1201, 1300, 1301]);
}

fn built(kind: u16, base: &[i16], words: &[i16]) {
    let r = Chart::build(kind, base);
    each_word(r.chart, words);
}

fn each_word(chart: Chart, words: &[i16]) {
    for word in words {
        one_word(chart, *word);
    }
}

fn one_word(chart: Chart, word: i16) {
    say::label();
    match lines::against_lines(chart, word) {
        Ok(b) => beyond(b),
        Err(refusal) => say::refusal(refusal),
    }
    say::end_of_line();
}

fn beyond(b: lines::BeyondEach) {
    say::named(b"lower warning ", b.lower_warning as u64);
    say::named(b", upper warning ", b.upper_warning as u64);
    say::named(b", lower control ", b.lower_control as u64);
    say::named(b", upper control ", b.upper_control as u64);
}
