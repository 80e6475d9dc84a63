// What the numbers of refusals and verdicts mean, as text, and the version.
//
// Each function puts its text at the front of the buffer and answers how many bytes it put. Bytes for which there is no room are left out.
// 64 bytes are enough for every text.
#![tactic(auto)]

ghost use Rattle.printing.specs.Output.{Puts};
ghost use Rattle.texts.specs.Texts.{refusal_meaning, verdict_meaning, version};

use printing::put_text;
use printing::tables::put_text_of;

// What a refusal's number means.
pub fn put_refusal_meaning(out: &mut [u8], number: u32) -> usize
    ensures { Puts out.old 0 (refusal_meaning number) out.new result }
{
    let table = b"done\n\
        the kind is not 1, 2 or 3\n\
        there are not 15 to 32 words\n\
        a word given for the base is out of range\n\
        the reading is of another kind than the chart\n\
        a reading is not in 0..1000000000\n\
        the divisor is 0\n\
        the word is out of range\n\
        a reanalysis or a correction is due\n\
        the series is full: it has 366 words\n\
        no reanalysis is due\n\
        no correction is due\n\
        base and series together have fewer than 15 words\n\
        the bytes are not a stored form\n\
        there is no chart, or it is not sound\n\
        the buffer is too short\n\
        fewer than 15 words stand after rejection\n";
    put_text_of(out, table, number as usize, b"no such number")
}

// What a verdict means.
pub fn put_verdict_meaning(out: &mut [u8], number: u32) -> usize
    ensures { Puts out.old 0 (verdict_meaning number) out.new result }
{
    let table = b"none\n\
        beyond a control limit\n\
        two in a row beyond the warning limit on one side\n\
        seven in a row rising or falling\n\
        seven in a row on one side of the mean\n";
    put_text_of(out, table, number as usize, b"no such verdict")
}

// The version of the library and the program. `include/control_chart.h` repeats it.
pub fn put_version(out: &mut [u8]) -> usize
    ensures { Puts out.old 0 version out.new result }
{
    put_text(out, 0, b"1.3.0")
}
