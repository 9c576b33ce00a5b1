//! What a base hands on of the faults below it.

use crate::engine::{CommitFault, EndFault};
use base_store::LoadFault;
use std::alloc::AllocError;

impl From<CommitFault> for EndFault {
    ghost use Rattle.std.specs.Prelude.{◌≡◌};
    ghost use Rattle.base_engine.specs.Faults.{end_of_commit};

    ghost from_gives = { λ f e. e ≡ end_of_commit f };

    fn from(fault: CommitFault) -> Self {
        match fault {
            CommitFault::DiskFault => EndFault::DiskFault,
            CommitFault::NoMemory => EndFault::NoMemory,
        }
    }
}

impl From<AllocError> for CommitFault {
    ghost use Rattle.std.specs.Prelude.{◌≡◌};
    ghost use Rattle.base_engine.specs.declared.engine.CommitFault.TheVariants.{NoMemory};

    ghost from_gives = { λ _ e. e ≡ NoMemory };

    fn from(_: AllocError) -> Self {
        CommitFault::NoMemory
    }
}

impl From<LoadFault> for EndFault {
    ghost use Rattle.std.specs.Prelude.{◌≡◌};
    ghost use Rattle.base_engine.specs.Faults.{end_of_load};

    ghost from_gives = { λ f e. e ≡ end_of_load f };

    fn from(fault: LoadFault) -> Self {
        match fault {
            LoadFault::DiskFault => EndFault::DiskFault,
            LoadFault::Damaged { area, at } => EndFault::Damaged { area, at },
            LoadFault::NoMemory => EndFault::NoMemory,
        }
    }
}

impl From<AllocError> for EndFault {
    ghost use Rattle.std.specs.Prelude.{◌≡◌};
    ghost use Rattle.base_engine.specs.declared.engine.EndFault.TheVariants.{NoMemory};

    ghost from_gives = { λ _ e. e ≡ NoMemory };

    fn from(_: AllocError) -> Self {
        EndFault::NoMemory
    }
}
