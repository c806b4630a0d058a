// What a load says.
#![tactic(auto, unfolding(format::specs::Answer::refusal_numbers, survey::specs::Outcomes::why_of, crate::specs::Carried::counts))]

ghost use Rattle.survey.specs.Outcomes.{why_of};
ghost use Rattle.answers.specs.Carried.{counts};

use crate::{Answer, Carries, Refuses};
use survey::{DeviceTree, DeviceTreeError};

impl Carries for DeviceTree {
    ghost carries = { counts };

    fn answer(self) -> Answer {
        Answer::of([
            0,
            u64::from(self.version),
            u64::from(self.boot_cpuid_phys),
            self.reserved as u64,
            self.nodes as u64,
            self.props as u64,
        ])
    }
}

impl Refuses for DeviceTreeError {
    ghost why = { why_of };

    fn answer(self) -> Answer {
        match self {
            DeviceTreeError::InvalidMagicNumber => Answer::alone(1),
            DeviceTreeError::SizeMismatch => Answer::alone(2),
            DeviceTreeError::UnexpectedEndOfInput => Answer::alone(3),
            DeviceTreeError::ParseError(n) => Answer::with(4, n as u64),
            DeviceTreeError::Utf8Error => Answer::alone(5),
            DeviceTreeError::VersionNotSupported => Answer::alone(6),
            DeviceTreeError::TooDeep(n) => Answer::with(7, n as u64),
            DeviceTreeError::ReservationRoom(n) => Answer::with(8, n as u64),
            DeviceTreeError::NodeRoom(n) => Answer::with(9, n as u64),
            DeviceTreeError::PropertyRoom(n) => Answer::with(10, n as u64),
        }
    }
}
