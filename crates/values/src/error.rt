// Why a value is not read.
ghost use Rattle.std.specs.Prelude.{◌≡◌};
ghost use Rattle.lookup.specs.Answers as lookup;
ghost use Rattle.utf8.specs.Outcomes as utf8;
ghost use Rattle.values.specs.Answers.{why_of};
ghost use Rattle.values.specs.declared.error.PropError.TheVariants.{Short};

use lookup::LookupError;
use reader::SliceReadError;
use utf8::Utf8Error;

// The Rust's reasons, and rows that cannot be used.
#[derive(Clone, Copy, Debug, PartialEq, Eq)]
pub enum PropError {
    NotFound,
    Utf8Error,
    Missing0,
    Short,
    Unusable,
}

pub type PropResult<T> = Result<T, PropError>;

// The same refusal.
impl From<LookupError> for PropError {
    ghost from_gives = { λ e r. why_of r ≡ lookup.why_of e };

    fn from(e: LookupError) -> PropError {
        match e {
            LookupError::NotFound => PropError::NotFound,
            LookupError::Unusable => PropError::Unusable,
        }
    }
}

impl From<Utf8Error> for PropError {
    ghost from_gives = { λ e r. why_of r ≡ utf8.why_of e };

    fn from(_e: Utf8Error) -> PropError {
        PropError::Utf8Error
    }
}

// A value has fewer bytes than the number.
impl From<SliceReadError> for PropError {
    ghost from_gives = { λ _ r. r ≡ Short };

    fn from(_e: SliceReadError) -> PropError {
        PropError::Short
    }
}
