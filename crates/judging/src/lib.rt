// Judging: the verdict on a word, whether a reanalysis passes, and what soundness asks of words and status. It uses limits and words, and
// never a chart.
#![tactic(auto)]

pub mod reanalysis;
pub mod soundness;
pub mod verdict;
pub mod verdicts;
