// What the program takes and answers, and its version.
use crate::say::{failure, say, say_front, say_part};
use printing::numbers::put_decimal;
use std::io::Result;
use texts::{put_refusal_meaning, put_verdict_meaning, put_version};

// Room for any text of `texts`, and for a number.
const ROOM: usize = 64;

// The program answers the refusals 1 to 14, and 16. It lends enough room for every stored form, so 15 never occurs.
const NO_ROOM: u32 = 15;

const TOO_FEW_STAND: u32 = 16;

// The verdicts are 0 to 4.
const VERDICTS: u32 = 5;

pub fn say_version(rt: HostRuntime) -> u8 {
    let mut version = [0u8; ROOM];
    let length = put_version(&mut version);
    say_part(rt, b"control_chart ");
    say_front(rt, &version, length);
    ended(rt, say(rt, b"\n"))
}

// The exit status, by whether the last line of a text was written.
fn ended(rt: HostRuntime, written: Result<()>) -> u8 {
    match written {
        Ok(()) => 0,
        Err(reason) => failure(rt, b"standard output", b"it cannot be written", reason),
    }
}

pub fn explain(rt: HostRuntime) -> u8 {
    say_usage(rt);
    say_commands(rt);
    say_numbers(rt);
    say_refusals(rt);
    say_files(rt);
    ended(
        rt,
        say(
            rt,
            b"Answers go to standard output, errors about FILE to standard error.\n",
        ),
    )
}

fn say_usage(rt: HostRuntime) {
    say_part(
        rt,
        b"control_chart: a control chart for duplicate, check and spike results\n\n",
    );
    say_part(
        rt,
        b"control_chart                    commands on standard input, one to a line; no chart until build or read\n",
    );
    say_part(
        rt,
        b"control_chart FILE COMMAND ..    one command on the chart that FILE holds; build makes FILE, or replaces its chart\n",
    );
    say_part(
        rt,
        b"control_chart help               this text, as -h and --help\n",
    );
    say_part(rt, b"control_chart --version          the version\n\n");
    say_part(
        rt,
        b"Exit status: 0 done (after post and reanalyse: the batch may go), 1 hold the batch (verdict 1 to 4, failed),\n",
    );
    say_part(
        rt,
        b"2 refused, 3 error; of several answers the highest.\n\n",
    );
    say_part(
        rt,
        b"Blanks separate fields. Numbers are whole and in decimal. Words are in hundredths of a percent: 10000 is 100 %.\n",
    );
    say_part(
        rt,
        b"Empty lines, lines that begin with #, and a byte order mark before a line are passed over. A line has at most\n",
    );
    say_part(rt, b"8191 bytes.\n\n");
}

fn say_files(rt: HostRuntime) {
    say_part(
        rt,
        b"A command that may change the chart makes FILE.lock, so that one works at a time, and replaces FILE whole or not\n",
    );
    say_part(
        rt,
        b"at all. A killed command leaves FILE.lock and was not done: if no command is at work, remove FILE.lock and repeat.\n",
    );
}

fn say_commands(rt: HostRuntime) {
    say_part(rt, b"command             answer\n");
    say_part(
        rt,
        b"word K A B C        word W                         the word of readings, for a base\n",
    );
    say_part(
        rt,
        b"build K W1 .. Wn    built rounds R removed M       a new chart from 15 to 32 words; what was posted before is gone\n",
    );
    say_part(
        rt,
        b"post K A B C        word W verdict V               a new word, judged\n",
    );
    say_part(
        rt,
        b"reanalyse K A B C   word W passed | word W failed  in place of the last word\n",
    );
    say_part(
        rt,
        b"correct             corrected                      the method was put right\n",
    );
    say_part(
        rt,
        b"renew               renewed rounds R removed M     a new base from the last 15 to 32 words\n",
    );
    say_part(
        rt,
        b"lines               lines MEAN LOWER-WARNING UPPER-WARNING LOWER-CONTROL UPPER-CONTROL\n",
    );
    say_part(
        rt,
        b"                    lines MEAN UPPER-WARNING UPPER-CONTROL   for kind 1\n",
    );
    say_part(
        rt,
        b"write               bytes N HEX                    the stored form\n",
    );
    say_part(
        rt,
        b"read HEX            read                           the chart of a stored form; hex digits of either case\n",
    );
    say_part(
        rt,
        b"show                chart kind K status S verdict V base N W1 .. WN series M W1 .. WM\n",
    );
    say_part(
        rt,
        b"any, refused        refused N                      nothing changed; a refused build or read leaves the chart\n",
    );
    say_part(
        rt,
        b"anything else       error: ..                      what is wrong and what to do; nothing changed\n\n",
    );
}

fn say_numbers(rt: HostRuntime) {
    say_part(
        rt,
        b"Kinds and readings, in the method's smallest digit (0.123 at three decimals is 123):\n",
    );
    say_part(
        rt,
        b"1 duplicate  A and B are the two results; C is ignored: give 0\n",
    );
    say_part(
        rt,
        b"2 check      A was found, B was made up; C is ignored: give 0\n",
    );
    say_part(
        rt,
        b"3 spike      A is the spiked sample, B the unspiked one, C what was added\n\n",
    );
    say_part(rt, b"verdict V:\n");
    for verdict in 0..VERDICTS {
        say_verdict(rt, verdict);
    }
    say_part(
        rt,
        b"Verdict 4 is for kinds 2 and 3. If several verdicts apply, the answer is the first of 1, 2, 4, 3.\n",
    );
    say_part(
        rt,
        b"After 1, 2 and 3 reanalyse; after 4, and after a failed reanalysis, correct and then reanalyse.\n",
    );
    say_part(
        rt,
        b"Status: 0 free, 1 a reanalysis is due, 2 a correction is due; show gives it with the open verdict.\n\n",
    );
}

fn say_refusals(rt: HostRuntime) {
    say_part(rt, b"refused N:\n");
    for refusal in 1..NO_ROOM {
        say_refusal(rt, refusal);
    }
    say_refusal(rt, TOO_FEW_STAND);
    say_part(rt, b"\n");
}

fn say_verdict(rt: HostRuntime, verdict: u32) {
    let mut meaning = [0u8; ROOM];
    let length = put_verdict_meaning(&mut meaning, verdict);
    say_meaning(rt, verdict, &meaning, length);
}

fn say_refusal(rt: HostRuntime, refusal: u32) {
    let mut meaning = [0u8; ROOM];
    let length = put_refusal_meaning(&mut meaning, refusal);
    say_meaning(rt, refusal, &meaning, length);
}

// Says a line: the number, two columns wide, and what it means.
fn say_meaning(rt: HostRuntime, number: u32, meaning: &[u8], length: usize) {
    if number < 10 {
        say_part(rt, b" ");
    }
    let mut digits = [0u8; ROOM];
    let width = put_decimal(&mut digits, 0, number as u64);
    say_front(rt, &digits, width);
    say_part(rt, b"  ");
    say_front(rt, meaning, length);
    say_part(rt, b"\n");
}
