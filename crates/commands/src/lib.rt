// Commands on a chart. A command is a line of text, and its answer is text.
//
// A line is passed over if it has no field or its first field begins with '#'. If a line has a fault, the answer says what is wrong, and no
// call is made. A call that document 01 refuses answers `refused` and its number. A refused build or read does not change the chart.
#![tactic(auto)]

pub mod faults;
pub mod names;
mod numbers;

ghost use Rattle.std.specs.Prelude.{◌≡◌, ◌≤◌, length};
ghost use Rattle.parsing.specs.Fields.{fields_of};
ghost use Rattle.printing.specs.Output.{Puts};
ghost use Rattle.commands.specs.declared.names.Change.TheVariants as change;
ghost use Rattle.commands.specs.Command.{line_most, faulty, asked, change_for, inquiry_for, command_for, line_in, is_build};
ghost use Rattle.commands.specs.Command as command;
ghost use Rattle.commands.specs.Reply.{reply_to};
ghost use Rattle.commands.specs.Answers.{Answers, AnswersInFull, Replies, chart_kept, word_reply};

use chart::{Called, Chart};
use faults::fault_for;
use lines::lines_of;
use names::{Change, Inquiry, Name, name_in};
use numbers::{put_words, readings_in};
use parsing::fields::{same_bytes, split_field};
use parsing::hex::put_bytes_of_hex;
use parsing::numbers::{kind_in_field, number_in_field};
use printing::put_byte;
use replies::{
    Fault, put_build, put_chart, put_correction, put_fault, put_form, put_form_read, put_formed,
    put_lines, put_post, put_reanalysis, put_refusal, put_renewal,
};
use store::FORM_MOST;

// The most bytes of a line.
pub const LINE_MOST: usize = 8191;

// Enough bytes for every answer: `answer_most` in `specs/Reply`. A chart's words, of at most six characters and a blank each, take less
// than 3,000 bytes.
pub const ANSWER_MOST: usize = 4096;

#[derive(Clone, Copy)]
pub struct Answered {
    pub chart: Chart,
    // The number of bytes of the answer, which ends in a line feed. It is 0 if the line is passed over.
    pub size: usize,
}

// Runs the command of a line, and puts its answer at the front of a buffer. A buffer of 4,096 bytes or more has room for every answer.
pub fn answer_line(chart: Chart, line: &[u8], out: &mut [u8]) -> Answered
    ensures answers { Answers chart (line_in line.now) out.old out.new result }
    ensures answers_in_full { AnswersInFull chart (line_in line.now) out.old out.new result }
{
    answer(chart, line, out)
}

// The same for a buffer of any size.
fn answer(chart: Chart, line: &[u8], out: &mut [u8]) -> Answered
    ensures { Answers chart (line_in line.now) out.old out.new result }
{
    if LINE_MOST < line.len() {
        return answer_fault(chart, Fault::LineTooLong, out);
    }
    let (first, fields) = split_field(line);
    if first.is_empty() || first[0] == b'#' {
        return Answered { chart, size: 0 };
    }
    let name = name_in(first);
    let found = fault_for(name, fields);
    match found {
        Err(fault) => answer_fault(chart, fault, out),
        Ok(()) => {
            let r = perform(chart, name, fields, out);
            let after = r.chart;
            let size = put_byte(out, r.size, b'\n');
            Answered { chart: after, size }
        }
    }
}

// Whether the line's command is `build`, which can make a chart if there is none.
pub fn is_build(line: &[u8]) -> bool
    ensures { result ≡ is_build line.now }
{
    let (first, _) = split_field(line);
    same_bytes(first, b"build")
}

// Answers what is wrong with a line. The chart does not change.
fn answer_fault(chart: Chart, fault: Fault, out: &mut [u8]) -> Answered
    ensures { Answers chart (faulty fault) out.old out.new result }
{
    let at = put_fault(out, fault);
    let size = put_byte(out, at, b'\n');
    Answered { chart, size }
}

// Runs the command with this name, on the fields after the name.
fn perform(chart: Chart, name: Name, fields: &[u8], out: &mut [u8]) -> Answered
    requires { length fields.now ≤ line_most }
    ensures { Replies chart (command_for name (fields_of fields.now)) out.old out.new result }
{
    match name {
        Name::Changes(change) => make_change(chart, change, fields, out),
        Name::Asks(inquiry) => {
            let size = put_inquiry(chart, inquiry, fields, out);
            Answered { chart, size }
        }
        Name::Other => {
            let size = put_fault(out, Fault::UnknownCommand);
            Answered { chart, size }
        }
    }
}

// ---- commands that may change the chart

fn make_change(chart: Chart, change: Change, fields: &[u8], out: &mut [u8]) -> Answered
    requires { length fields.now ≤ line_most }
    ensures { Replies chart (asked (change_for change (fields_of fields.now))) out.old out.new result }
{
    match change {
        Change::Build => build(chart, fields, out),
        Change::Post => post(chart, fields, out),
        Change::Reanalyse => reanalyse(chart, fields, out),
        Change::Correct => correct(chart, out),
        Change::Renew => renew(chart, out),
        Change::Read => read(chart, fields, out),
    }
}

fn build(chart: Chart, fields: &[u8], out: &mut [u8]) -> Answered
    requires { length fields.now ≤ line_most }
    ensures { Replies chart (asked (change_for change.Build (fields_of fields.now))) out.old out.new result }
{
    let (kind, rest) = split_field(fields);
    let mut words = [0i16; LINE_MOST];
    let n = put_words(rest, &mut words);
    let r = Chart::build(kind_in_field(number_in_field(kind)), &words[..n]);
    let size = put_build(out, r.answer);
    Answered {
        chart: chart_kept(chart, r),
        size,
    }
}

// A refused build or read does not change the chart.
fn chart_kept<A: Copy>(chart: Chart, r: Called<A>) -> Chart
    ensures { result ≡ chart_kept chart r }
{
    match r.answer {
        Ok(_) => r.chart,
        Err(_) => chart,
    }
}

fn post(chart: Chart, fields: &[u8], out: &mut [u8]) -> Answered
    ensures { Replies chart (asked (change_for change.Post (fields_of fields.now))) out.old out.new result }
{
    let f = readings_in(fields);
    let r = chart.post(f.kind, f.a, f.b, f.c);
    let size = put_post(out, r.answer);
    Answered {
        chart: r.chart,
        size,
    }
}

fn reanalyse(chart: Chart, fields: &[u8], out: &mut [u8]) -> Answered
    ensures { Replies chart (asked (change_for change.Reanalyse (fields_of fields.now))) out.old out.new result }
{
    let f = readings_in(fields);
    let r = chart.reanalyse(f.kind, f.a, f.b, f.c);
    let size = put_reanalysis(out, r.answer);
    Answered {
        chart: r.chart,
        size,
    }
}

fn correct(chart: Chart, out: &mut [u8]) -> Answered
    ensures { Replies chart (asked command.correct) out.old out.new result }
{
    let r = chart.correct();
    let size = put_correction(out, r.answer);
    Answered {
        chart: r.chart,
        size,
    }
}

fn renew(chart: Chart, out: &mut [u8]) -> Answered
    ensures { Replies chart (asked command.renew) out.old out.new result }
{
    let r = chart.renew();
    let size = put_renewal(out, r.answer);
    Answered {
        chart: r.chart,
        size,
    }
}

fn read(chart: Chart, fields: &[u8], out: &mut [u8]) -> Answered
    requires { length fields.now ≤ line_most }
    ensures { Replies chart (asked (change_for change.Read (fields_of fields.now))) out.old out.new result }
{
    let (digits, _) = split_field(fields);
    let mut bytes = [0u8; LINE_MOST];
    let n = put_bytes_of_hex(digits, &mut bytes);
    let r = store::read(&bytes[..n]);
    let size = put_form_read(out, r.answer);
    Answered {
        chart: chart_kept(chart, r),
        size,
    }
}

// ---- commands that do not change the chart

fn put_inquiry(chart: Chart, inquiry: Inquiry, fields: &[u8], out: &mut [u8]) -> usize
    ensures { Puts out.old 0 (reply_to chart (inquiry_for inquiry (fields_of fields.now))) out.new result }
{
    match inquiry {
        Inquiry::Word => word(fields, out),
        Inquiry::Lines => put_lines(out, lines_of(chart)),
        Inquiry::Write => write(chart, out),
        Inquiry::Show => put_chart(out, chart),
    }
}

fn word(fields: &[u8], out: &mut [u8]) -> usize
    ensures { Puts out.old 0 (word_reply (fields_of fields.now)) out.new result }
{
    let f = readings_in(fields);
    put_formed(out, words::word(f.kind, f.a, f.b, f.c))
}

fn write(chart: Chart, out: &mut [u8]) -> usize
    ensures { Puts out.old 0 (reply_to chart command.write) out.new result }
{
    let mut bytes = [0u8; FORM_MOST];
    let written = store::write(chart, &mut bytes);
    match written {
        Ok(size) => put_form(out, &bytes[..size]),
        Err(refusal) => put_refusal(out, refusal.number()),
    }
}
