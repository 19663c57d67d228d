// The worked cases: two small lines under each kind of vessel, and four heights of the gauge.
#![tactic(auto)]

ghost use Rattle.std.specs.Prelude.{◌≡◌, [], ◌∷◌, Ok};
ghost use Rattle.worked.specs.Worked.{Worked};

use gauge::dip;
use hopper::Fault;

// The litres just below the height of the first litre and at it, and just below the top of the gauge and at it.
// Its promise holds all the worked cases together, those of the two small lines too.
#[tactic(auto, using(crate::proofs::Worked::worked))]
pub fn worked_cases() -> Result<[u32; 4], Fault>
    ensures cases { Worked }
    ensures dips { result ≡ Ok (0 ∷ 1 ∷ 574 ∷ 576 ∷ []) }
{
    Ok([dip(144)?, dip(145)?, dip(1_199)?, dip(1_200)?])
}
