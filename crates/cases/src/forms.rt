// Stored forms in lent buffers, with every byte said; charts written and read back; and the chart that a refused start gives.
use crate::say;
use chart::Chart;

pub fn stored_forms(a: Chart) {
    say::heading();
    let first = a.post(2, 10250, 10000, 0);
    let second = first.chart.post(2, 10210, 10000, 0);
    let due = second.chart;
    let mut bad = a;
    bad.kind = 4;
    written(a, due, bad);
    returned(a, due, bad);
}

// A needs 48 bytes, and 4 more with two words in the series. The last three charts are not sound.
fn written(a: Chart, due: Chart, bad: Chart) {
    write_into(a, &mut [170; 48]);
    write_into(a, &mut [170; 50]);
    write_into(a, &mut [170; 47]);
    write_into(a, &mut [170; 9]);
    write_into(due, &mut [170; 52]);
    write_into(bad, &mut [170; 9]);
    write_into(bad, &mut [170; 50]);
    let mut long = a;
    long.base_len = 33;
    write_into(long, &mut [170; 50]);
}

fn returned(a: Chart, due: Chart, bad: Chart) {
    read_back(a);
    read_back(due);
    negative_returned();
    shortest_returned(a);
    longest_returned(a);
    // Writing refuses these.
    read_back(bad);
    read_from(a, &mut [170; 47]);
}

// Words below 0.
fn negative_returned() {
    let r = Chart::build(3, &[-313; 15]);
    read_back(r.chart);
}

// The shortest base. No build gives it.
fn shortest_returned(a: Chart) {
    let mut short = a;
    short.kind = 1;
    short.base = [0; Chart::BASE_MOST];
    short.base_len = Chart::BASE_LEAST;
    read_back(short);
}

// The longest series.
fn longest_returned(a: Chart) {
    let mut full = a;
    full.series = [10000; Chart::SERIES_MOST];
    full.series_len = Chart::SERIES_MOST;
    read_back(full);
}

fn write_into(chart: Chart, lent: &mut [u8]) {
    say::label();
    match store::write(chart, lent) {
        Ok(size) => say::named(b"wrote ", size as u64),
        Err(refusal) => say::refusal(refusal),
    }
    say::text(b":");
    each_byte(lent);
    say::end_of_line();
}

// A blank and two hex digits for each byte.
fn each_byte(bytes: &[u8]) {
    for byte in bytes {
        say::text(b" ");
        io::print_hex(say::OUTPUT, *byte as u64, 2);
    }
}

// Lends room for every form.
fn read_back(chart: Chart) {
    read_from(chart, &mut [170; 1024]);
}

// Writes the chart into the lent bytes, and reads what was written.
fn read_from(chart: Chart, lent: &mut [u8]) {
    say::label();
    let r = store::write_and_read(chart, lent);
    match r.answer {
        Ok(()) => came_back(r.chart),
        Err(refusal) => say::refusal(refusal),
    }
    say::end_of_line();
}

fn came_back(chart: Chart) {
    say::named(b"kind ", chart.kind as u64);
    first_words(b" base of ", &chart.base, chart.base_len);
    first_words(b"; series of ", &chart.series, chart.series_len);
    say::status(chart);
}

// The number n, and the first n words. A chart that was read has that many.
fn first_words(name: &[u8], words: &[i16], n: usize) {
    say::named(name, n as u64);
    if n <= words.len() {
        say::words(b":", &words[..n]);
    }
}

// The chart that a refused build and a refused read give: every number and every place of it is 0.
pub fn refused_starts(words: &[i16]) {
    say::heading();
    let built = Chart::build(4, words);
    places(built.chart);
    too_few_stand();
    let taken = store::read(&[]);
    places(taken.chart);
}

// Rejection removes 2000, and fourteen words stand.
fn too_few_stand() {
    let mut words = [1000; 15];
    words[14] = 2000;
    let built = Chart::build(1, &words);
    places(built.chart);
}

fn places(chart: Chart) {
    say::label();
    say::numbers(chart);
    say::words(b"base places", &chart.base);
    say::words(b"; series places", &chart.series);
    say::end_of_line();
}
