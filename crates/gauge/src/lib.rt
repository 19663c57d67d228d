// The gauge of the hopper: the litres at a height in millimetres, and the height of so many litres.
#![tactic(auto)]

ghost use Rattle.std.specs.Prelude.{◌≡◌, ◌≤◌};
ghost use Rattle.hopper.specs.Refusing.{refuse, Answers};
ghost use Rattle.gauge.specs.Gauge.{most_height, litres, dip_checks, height_checks, IsLeastHeight};

use hopper::{Fault, Layer, Refusal, check, pass};

// The top of the gauge, in millimetres.
const MOST_HEIGHT: u32 = 1_200;

// The litres at the top of the gauge.
const MOST_LITRES: u32 = 576;

// What the cube of a height counts for each litre.
const CUBE_OF_LITRE: u32 = 3_000_000;

// The litres at a height of the gauge.
fn litres_at(h: u32) -> u32
    requires { h ≤ most_height }
    ensures { result ≡ litres h }
{
    h * h * h / CUBE_OF_LITRE
}

// The litres at a height of so many millimetres.
pub fn dip(h: u32) -> Result<u32, Fault>
    ensures { result ≡ refuse (dip_checks h) (litres h) }
{
    pass(&[check(
        h > MOST_HEIGHT,
        Refusal::HeightAboveGauge,
        Layer::Rest,
        h as u64,
    )])?;
    Ok(litres_at(h))
}

// The least height, in millimetres, that holds the wanted litres or more.
pub fn height(wanted: u32) -> Result<u32, Fault>
    ensures { Answers (height_checks wanted) (IsLeastHeight wanted) (Unit {0}) result }
{
    pass(&[check(
        wanted > MOST_LITRES,
        Refusal::LitresAboveGauge,
        Layer::Rest,
        wanted as u64,
    )])?;
    // kept as it is: no plainer, a search by halves over numbers, where the library's is over slices
    let mut low = 0;
    let mut high = MOST_HEIGHT;
    while low < high {
        let mid = (low + high) / 2;
        if litres_at(mid) < wanted {
            low = mid + 1;
        } else {
            high = mid;
        }
    }
    Ok(high)
}
