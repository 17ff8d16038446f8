// Measuring over a slice of placements: one thin entry, which copies their numbers and hands them to the flat one.
#![tactic(auto)]

ghost use Rattle.std.specs.Prelude.{◌≡◌};
ghost use Rattle.terms.specs.Answer.{answer_of};
ghost use Rattle.folding.specs.Placement.{flat_of};
ghost use Rattle.folding.specs.Calls.{measure_of};

use arrayvec::ArrayVec;
use folding::{Outline, Placement};
use terms::{Kind, MOST_APART, Refusal};

pub fn measure_placements(
    file: &[u8],
    kind: Kind,
    placements: &[Placement],
) -> Result<Outline, Refusal>
    ensures { answer_of result ≡ measure_of kind file.now (flat_of placements.now) }
{
    // No stack has more components.
    let n = placements.len().min(MOST_APART);
    let mut numbers = ArrayVec::<[u32; 3], MOST_APART>::new();
    for placement in &placements[..n] {
        numbers.push(<[u32; 3]>::from(*placement));
    }
    measure::measure(file, kind, numbers.as_slice().as_flattened())
}
