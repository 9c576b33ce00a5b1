//! A base does requests.
ghost use Rattle.kept_base.specs.Base.{BaseState, StandsForState};

use crate::base::Base;
use base_engine::{CommitFault, EndFault, Engine};
use horn_closure::Steps;
use host_io::Host;
use reply_text::Reply;
use script_reader::Request;
use std::alloc::Global;
use std::sync::ledger::Ledger;

impl Engine for Base {
    ghost stands = { StandsForState };

    ghost taken = { λ base. base.steps };

    fn load<H: Host>(alloc: Global, host: &mut H) -> Result<Self, EndFault> {
        Base::load(alloc, host)
    }

    fn step<H: Host, L: Ledger>(
        self,
        alloc: Global,
        host: &mut H,
        request: Request,
        steps: &mut Steps<L>,
    ) -> Result<(Self, Reply), EndFault> {
        Base::step(self, alloc, host, request, steps)
    }

    fn commit<H: Host, L: Ledger>(
        self,
        alloc: Global,
        host: &mut H,
        session: u8,
        steps: &mut Steps<L>,
    ) -> Result<(Self, Reply), CommitFault> {
        Base::commit(self, alloc, host, session, steps)
    }
}
