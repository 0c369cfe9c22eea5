// A forecast of the first election step, where next round's weights are known only within bounds.
#![tactic(auto)]

ghost use Rattle.std.specs.Prelude.{◌≡◌};
ghost use Rattle.forecast.specs.Forecast.{forecast_of};

use bounds::Bounds;
use frame::Record;
use refusals::Refusal;

// What the first election step on the office's ballots would settle, whichever weights within the bounds are chosen: an entry, or none. Bounds from
// place n on are not looked at, and neither are the record's weights.
pub fn first_step(
    office: Record,
    log: &[u32],
    lowest: [u16; 8],
    highest: [u16; 8],
) -> Result<Option<u32>, Refusal>
    ensures { result ≡ forecast_of office log.now lowest highest }
{
    if !office.sound(log) {
        return Err(Refusal::Unsound);
    }
    let bounds = Bounds { lowest, highest };
    if !bounds.fit(office.n) {
        return Err(Refusal::NoWeights);
    }
    let held = (office.settled - office.kept.dropped) as usize;
    let counts = counting::counts_after(office.kept.counts, &log[..held]);
    let votes = votes::of_ballots(office.ballots);
    Ok(bounds.sure_winner(office.n, &votes, counts))
}
