// Whole lists of calls: what is answered, every number of the lent buffer, the chart after the list, and its lines.
use crate::say;
use chart::Chart;
use lists::ListRefusal;

pub fn lists_run(a: Chart, words: &[i16]) {
    say::heading();
    from_words(2, words, &[]);
    // A post and a renewal.
    from_words(2, words, &[1, 2, 10250, 10000, 0, 4, 0, 0, 0, 0]);
    not_lists(words);
    not_started(words);
    stored(a);
    stored_fourteen();
}

// Numbers that are no list, and a list without room.
fn not_lists(words: &[i16]) {
    from_words(2, words, &[3; 6]);
    one_call(2, words, 5);
    one_call(2, words, 0);
    one_call(2, words, -1);
    one_call(2, words, 65537);
    from_words(2, words, &[3, 0, 0, 0, 0, 9, 0, 0, 0, 0]);
    from_words(2, words, &[3; 46]);
    from_words(2, words, &[3; 45]);
}

// Words that building refuses, with a list that can be run, with numbers that are no list, and with a list without room.
fn not_started(words: &[i16]) {
    let few = [10000; 14];
    one_call(2, &few, 3);
    one_call(4, words, 3);
    one_call(4, &few, 3);
    from_words(2, &few, &[3; 6]);
    from_words(2, &few, &[3; 45]);
    // Fourteen words stand.
    let mut far = [1000; 15];
    far[14] = 2000;
    one_call(1, &far, 3);
}

// From the stored form of A after the post of 10301: a reanalysis and a correction.
fn stored(a: Chart) {
    let mut due = a;
    due.series[0] = 10301;
    due.series_len = 1;
    due.status = 1;
    due.open_verdict = 1;
    let mut form = [0; 50];
    // If writing refused, the list would be refused too, and that would be said.
    let _ = store::write(due, &mut form);
    from_bytes(&form, &[2, 2, 10301, 10000, 0, 3, 0, 0, 0, 0]);
    form[6] = 3;
    not_stored(&form);
}

// From the same form with status 3, and from no bytes.
fn not_stored(form: &[u8]) {
    let one = [3, 0, 0, 0, 0];
    from_bytes(form, &one);
    from_bytes(&[], &one);
}

// From a stored base of fourteen words: a renewal, which is refused, a post of 1000, and a renewal.
fn stored_fourteen() {
    let built = Chart::build(1, &[1000; 15]);
    let mut few = built.chart;
    few.base[14] = 0;
    few.base_len = 14;
    let mut form = [0; 46];
    let _ = store::write(few, &mut form);
    from_bytes(
        &form,
        &[4, 0, 0, 0, 0, 1, 1, 21000, 19000, 0, 4, 0, 0, 0, 0],
    );
}

// ---- running a list

fn one_call(kind: u16, words: &[i16], number: i64) {
    from_words(kind, words, &[number, 0, 0, 0, 0]);
}

fn from_words(kind: u16, words: &[i16], calls: &[i64]) {
    let mut answers = [7; 24];
    let r = lists::run_from_words(kind, words, calls, &mut answers);
    run(r, &answers);
}

fn from_bytes(bytes: &[u8], calls: &[i64]) {
    let mut answers = [7; 24];
    let r = lists::run_from_bytes(bytes, calls, &mut answers);
    run(r, &answers);
}

fn run(r: lists::Run, answers: &[i64]) {
    say::label();
    answered(r.answer);
    say::text(b"; answers");
    each_number(answers);
    say::text(b"; ");
    say::numbers(r.chart);
    let mut out = [0; 256];
    let size = replies::put_lines(&mut out, r.lines);
    say::front(&out, size);
    say::end_of_line();
}

fn answered(answer: Result<(), ListRefusal>) {
    match answer {
        Ok(()) => say::text(b"done"),
        Err(ListRefusal::Start(refusal)) => {
            say::named(b"start refused ", u64::from(refusal.number()));
        }
        Err(ListRefusal::NotCalls) => say::text(b"no list"),
        Err(ListRefusal::NoRoom) => say::text(b"no room"),
    }
}

// A blank and each number.
fn each_number(numbers: &[i64]) {
    for number in numbers {
        say::text(b" ");
        say::signed(*number);
    }
}
