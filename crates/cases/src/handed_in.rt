// Charts handed in that no call and no stored form gives, and one with status 9, which does not exist. None is sound, so a post refuses
// each with 14. The status and the verdict of the chart that it gives back are said. The clients of the C interface try every call on
// stored forms of charts that are not sound.
use crate::say;
use chart::Chart;

pub fn charts_handed_in(a: Chart) {
    say::heading();
    let mut bad = a;
    bad.base_len = 9;
    post(bad);
    bad.base_len = 33;
    post(bad);
    let mut bad = a;
    bad.series_len = 367;
    post(bad);
    let mut bad = a;
    bad.base[15] = 1;
    post(bad);
    let mut bad = a;
    bad.series[365] = 1;
    post(bad);
    let mut bad = a;
    bad.status = 9;
    post(bad);
}

// The answer to the reading of 10000, and the status and the verdict of the chart that is given back.
fn post(chart: Chart) {
    say::label();
    let r = chart.post(2, 10000, 10000, 0);
    let mut out = [0; 64];
    let size = replies::put_post(&mut out, r.answer);
    say::front(&out, size);
    say::status(r.chart);
    say::end_of_line();
}
