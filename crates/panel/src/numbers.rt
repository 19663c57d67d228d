// Answers as the numbers that C gets.
ghost use Rattle.std.specs.Prelude.{◌≡◌};
ghost use Rattle.std.specs.Result.{result_unwrap_or};
ghost use Rattle.panel.specs.Told.{fault_numbers, answer_numbers};

use hopper::Fault;

// Why a call refused: the numbers of a refusal and its layer, and the spot; all 0 where it accepted.
#[repr(C)]
#[derive(Clone, Copy)]
pub struct FaultNumbers {
    pub number: u32,
    pub layer: u32,
    pub spot: u64,
}

impl From<Fault> for FaultNumbers {
    ghost from_gives = { λ f n. n ≡ fault_numbers f };

    fn from(fault: Fault) -> FaultNumbers {
        FaultNumbers {
            number: u32::from(fault.number()),
            layer: u32::from(fault.layer.number()),
            spot: fault.spot,
        }
    }
}

// The numbers of an answer, and its value at `out` where it accepts.
pub(crate) fn tell<T: Copy>(answer: Result<T, Fault>, out: &mut T) -> FaultNumbers
    ensures numbers { result ≡ answer_numbers answer }
    ensures value { out.new ≡ result_unwrap_or answer out.old }
{
    match answer {
        Ok(value) => {
            *out = value;
            FaultNumbers {
                number: 0,
                layer: 0,
                spot: 0,
            }
        }
        Err(fault) => fault.into(),
    }
}

// The numbers of an answer without a value.
pub(crate) fn told(answer: Result<(), Fault>) -> FaultNumbers
    ensures { result ≡ answer_numbers answer }
{
    tell(answer, &mut ())
}
