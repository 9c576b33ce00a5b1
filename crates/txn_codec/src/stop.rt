//! Where skimming bytes stops.

ghost use Rattle.std.specs.Prelude.{◌≡◌};
ghost use Rattle.grammar.specs.declared.fault.ReadError.TheVariants.{Fault};

use grammar::ReadError;

/// No text goes on here: so many of the bytes are left.
#[derive(Clone, Copy, Debug, PartialEq, Eq)]
pub(crate) struct Stop {
    pub left: usize,
}

impl From<Stop> for ReadError {
    ghost from_gives = { λ stop e. e ≡ Fault stop.left };

    fn from(stop: Stop) -> ReadError {
        ReadError::Fault(stop.left)
    }
}
