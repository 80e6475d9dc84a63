// Runs what no command of `control_chart` can express, and says the answers: charts handed in that no call gives, lent buffers, a chart
// written and read back, words against a chart's lines, the sums that rounds of rejection are given, and whole lists of calls. Standard
// input has a line for each case, with its label. The label is said, and the answer after it. `tests/model` makes both files: `stdin`, and
// `stdout`, with which the output is compared. All functions but `fill` only write output, and no contract can state what is written.
#![tactic(auto)]

mod against;
mod forms;
mod handed_in;
mod listed;
mod rounds;
mod say;

use chart::Chart;

fn main() {
    // Document 01's base A, of kind 2: mean 10000, S 100.
    let mut words = [9900; 15];
    fill(&mut words, 7, 10100);
    words[14] = 10000;
    let built = Chart::build(2, &words);
    let a = built.chart;
    handed_in::charts_handed_in(a);
    forms::stored_forms(a);
    against::words_against_lines(a);
    rounds::sums_given(a);
    listed::lists_run(a, &words);
    forms::refused_starts(&words);
}

// Puts the word into every place from `from` on.
pub fn fill(words: &mut [i16], from: usize, word: i16) {
    for place in words.iter_mut().skip(from) {
        *place = word;
    }
}
