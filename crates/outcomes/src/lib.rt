// What a command on the chart in a file comes to. The file's bytes and the command's line give the text to say, and the file's new bytes if
// it changes. The program that reads and writes the file only moves these bytes. The exit status of an answer is here too.
#![tactic(auto)]

pub mod names;
pub mod status;

ghost use Rattle.std.specs.Prelude.{◌≡◌, length, option_copied};
ghost use Rattle.refusals.specs.Refusal.{refusal_number};
ghost use Rattle.outcomes.specs.OnFile.{bytes, no_file, held_in, on_chart, start_from, start_of, ending, Ends, IsFault, Counts};
ghost use Rattle.outcomes.specs.OnFile.{fault_number, fault_text, of_form, not_written};

use chart::{Chart, zero_chart};
use commands::{answer_line, is_build};
use names::has_command;
use parsing::fields::same_bytes;
use printing::put_text;
use refusals::Refusal;

#[derive(Clone, Copy)]
pub enum Outcome {
    // The command is answered, and the file stays as it is.
    Answered,
    // The command is answered, and the file has to be replaced by the new form.
    Changed,
    // Nothing is done. The text says what is wrong with the file, or that there is no command.
    Fault,
    // The buffer for the form is too short, so nothing may be kept or said.
    NoRoom,
}

#[derive(Clone, Copy)]
pub struct OnFile {
    pub outcome: Outcome,
    // The lengths of the form and of the text, at the front of the lent buffers.
    pub form: usize,
    pub size: usize,
}

// What is wrong with the line or the file.
#[derive(Clone, Copy, Debug, PartialEq, Eq)]
pub enum FileFault {
    // The line has no command.
    NoCommand,
    // There is no file, and the command is not `build`.
    NoFile,
    // The file's bytes are not a stored form.
    NoStoredForm,
    // The chart in the file is not sound.
    NotSound,
}

// One command on the chart in a file. It takes the file's bytes, if there is a file, and the command's line. Buffers of `FORM_MOST` and of
// `ANSWER_MOST` bytes have room for every form and every text.
pub fn on_file(held: Option<&[u8]>, line: &[u8], form: &mut [u8], out: &mut [u8]) -> OnFile
    ensures ends { Ends (ending (start_of (held_in (option_copied held.entry)) line.now) line.now (length form.old)) form.old form.new out.old out.new result }
    ensures form_counted { Counts result.form form.new }
    ensures text_counted { Counts result.size out.new }
{
    if !has_command(line) {
        return fault(FileFault::NoCommand, out);
    }
    match held {
        Some(bytes) => on_bytes(bytes, line, form, out),
        None => on_no_file(line, form, out),
    }
}

// There is no file: `build` makes it.
fn on_no_file(line: &[u8], form: &mut [u8], out: &mut [u8]) -> OnFile
    ensures { Ends (ending (start_from no_file line.now) line.now (length form.old)) form.old form.new out.old out.new result }
{
    if is_build(line) {
        return on_chart(zero_chart(), &[], line, form, out);
    }
    fault(FileFault::NoFile, out)
}

// There is a file with these bytes. They have to be a stored chart: `build` replaces no other file.
fn on_bytes(held: &[u8], line: &[u8], form: &mut [u8], out: &mut [u8]) -> OnFile
    ensures { Ends (ending (start_from (bytes held.now) line.now) line.now (length form.old)) form.old form.new out.old out.new result }
{
    let read = store::read(held);
    match read.answer {
        Ok(()) => on_chart(read.chart, held, line, form, out),
        // Reading refuses with 13 and 14 only.
        Err(refusal) => match refusal {
            Refusal::NoStoredForm => fault(FileFault::NoStoredForm, out),
            _ => fault(FileFault::NotSound, out),
        },
    }
}

// The command on a chart, and the bytes that the file holds for it.
fn on_chart(chart: Chart, held: &[u8], line: &[u8], form: &mut [u8], out: &mut [u8]) -> OnFile
    ensures { Ends (ending (on_chart chart held.now) line.now (length form.old)) form.old form.new out.old out.new result }
{
    let answered = answer_line(chart, line, out);
    let written = store::write(answered.chart, form);
    match written {
        Ok(n) => OnFile {
            outcome: of_form(held, &form[..n]),
            form: n,
            size: answered.size,
        },
        Err(refusal) => OnFile {
            outcome: not_written(refusal),
            form: 0,
            size: answered.size,
        },
    }
}

// The file is changed only if it does not hold this form already.
fn of_form(held: &[u8], form: &[u8]) -> Outcome
    ensures { result ≡ of_form held.now form.now }
{
    if same_bytes(held, form) {
        return Outcome::Answered;
    }
    Outcome::Changed
}

// A chart that is not sound (14) is not kept. A refused build leaves the chart of zeros, which is not sound, if there was no file.
fn not_written(refusal: Refusal) -> Outcome
    ensures { result ≡ not_written (refusal_number refusal) }
{
    match refusal {
        Refusal::NotSound => Outcome::Answered,
        _ => Outcome::NoRoom,
    }
}

fn fault(fault: FileFault, out: &mut [u8]) -> OnFile
    ensures { IsFault (fault_number fault) out.old out.new result }
{
    OnFile {
        outcome: Outcome::Fault,
        form: 0,
        size: put_text(out, 0, fault.text()),
    }
}

impl FileFault {
    // What is wrong, and what to do.
    fn text(self) -> &'static [u8]
        ensures { result.now ≡ fault_text (fault_number self) }
    {
        match self {
            FileFault::NoCommand => b"missing command; control_chart help lists the commands",
            FileFault::NoFile => b"there is no such file; build makes it",
            FileFault::NoStoredForm => {
                b"it holds no stored chart (refused 13); check the name, or take the last good copy; to build anew, move it away first"
            }
            FileFault::NotSound => {
                b"the chart in it is not sound (refused 14); if an older version left it open, close it with that version, else take the last good copy; to build anew, move it away first"
            }
        }
    }
}
