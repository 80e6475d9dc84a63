// The chart in its stored form, at the front of a lent buffer; and the kinds that callers pass.
ghost use Rattle.std.specs.Prelude.{◌≡◌};
ghost use Rattle.store.specs.HeldChart.{IsHeld};
ghost use Rattle.chart_c.specs.Calls.{kind_passed};
ghost use Rattle.chart_c.specs.Forms.{front_start};

use chart::sound::SoundChart;
use refusals::Refusal;
use store::held::held_in;

// The chart whose stored form is the first `size` bytes of a buffer.
pub fn held_at_front(buffer: &[u8], size: usize) -> Result<SoundChart, Refusal>
    ensures { IsHeld (front_start buffer.now size) result }
{
    if buffer.len() < size {
        return Err(Refusal::NoStoredForm);
    }
    held_in(&buffer[..size])
}

// A number of sixteen bits stays as it is. A larger number is no chart's kind; it becomes 0, which is no chart's kind either.
pub fn kind_passed(kind: u32) -> u16
    ensures { result ≡ kind_passed kind }
{
    u16::try_from(kind).unwrap_or(0)
}
