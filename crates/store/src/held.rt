// The chart that bytes hold, for callers that go on with a sound chart alone.
ghost use Rattle.rules.specs.Lists.{bytes_start};
ghost use Rattle.store.specs.HeldChart.{IsHeld};

use crate::read;
use chart::sound::SoundChart;
use refusals::Refusal;

// The chart whose stored form is these bytes.
#[tactic(auto, using(crate::proofs::HeldChart::held_sound))]
pub fn held_in(bytes: &[u8]) -> Result<SoundChart, Refusal>
    ensures { IsHeld (bytes_start bytes.now) result }
{
    let back = read(bytes);
    back.answer?;
    Ok(SoundChart { chart: back.chart })
}
