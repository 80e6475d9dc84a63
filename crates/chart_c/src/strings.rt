// Texts into lent buffers, as strings of C.
ghost use Rattle.refusals.specs.Refusal.{answered_number};
ghost use Rattle.chart_c.specs.Texts.{PutsText};

use printing::{put_byte, put_text};
use refusals::Refusal;

// A buffer of this length has room for every text of `texts` and its 0 byte. `include/control_chart.h` repeats the number.
pub const TEXT_MOST: usize = 64;

// Puts the text and a 0 byte at the front of the buffer. If there is no room, it is refused with 15 and leaves the buffer as it was.
pub fn put_string(text: &[u8], buffer: &mut [u8]) -> Result<(), Refusal>
    ensures { PutsText text.now buffer.old buffer.new (answered_number result) }
{
    if buffer.len() <= text.len() {
        return Err(Refusal::NoRoom);
    }
    let end = put_text(buffer, 0, text);
    put_byte(buffer, end, 0);
    Ok(())
}
