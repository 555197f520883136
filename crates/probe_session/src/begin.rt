//! How a session begins.

ghost use Rattle.std.specs.Prelude.{◌≡◌, IfOk, IfErr, OnOk};
ghost use Rattle.debug_model.specs.Told.{IsAsLoaded, Selects};
ghost use Rattle.abstract_debugger.specs.Debugger.{first_state};
ghost use Rattle.probe_run.specs.Opening.{ConnectFails, LosesLoaded, Opened, OpensLoaded, opening_why};
ghost use Rattle.probe_session.specs.Commands.{state_of};
ghost use Rattle.probe_session.specs.Known.{Knows};
ghost use Rattle.probe_session.specs.Links.{Attached};
ghost use Rattle.probe_session.specs.declared.known.Known.TheVariants as known;
ghost use Rattle.debug_model.specs.Kept.{CanCall, Keeps};
ghost use Rattle.probe_run.specs.Told.{told, Fails};
ghost use Rattle.debug_model.specs.Rises.{Within};
ghost use Rattle.probe_run.specs.Soon.{OpeningByWire};

use crate::known::Known;
use crate::session::Session;
use debug_model::{Dmi, Path};
use probe_run::{ConnectFault, connect};

impl Session {
    /// Opens the chip and begins a session: hart 0 is selected, and memory is reached through the program buffer.
    pub fn begin<D: Dmi>(link: &mut D) -> Result<Session, ConnectFault>
        requires callable { CanCall (D.seen link.old) }
        ensures first { IfOk result (λ session. state_of session ≡ first_state) }
        ensures known { IfOk result (λ session. session.known ≡ known.Selected) }
        ensures did { OnOk result (Opened (told (D.seen link.old)) (told (D.seen link.new))) }
        ensures fails { IfErr result (Fails ConnectFails (D.seen link.old) (D.seen link.new)) }
        ensures loaded { OnOk result (OpensLoaded (D.seen link.old).far (D.seen link.new).far) }
        ensures selects { OnOk result (IsAsLoaded (D.seen link.old).far → Selects 0 (D.seen link.new).far) }
        ensures knows { IfOk result (λ session. IsAsLoaded (D.seen link.old).far → Knows session.known session.hart (D.seen link.new).far) }
        ensures serving { OnOk result (IsAsLoaded (D.seen link.old).far → Attached (D.seen link.new)) }
        ensures lost { IfErr result (LosesLoaded (D.seen link.old).far (D.seen link.new).far) }
        ensures rises { Within 72 (D.seen link.old) (D.seen link.new) }
        ensures never { IfErr result (OpeningByWire (D.seen link.old)) }
        ensures keeps { Keeps opening_why (D.seen link.old) (D.seen link.new) result }
    {
        match connect(link) {
            Ok(target) => Ok(Session {
                target,
                hart: 0,
                path: Path::Progbuf,
                known: Known::Selected,
            }),
            Err(fault) => Err(fault),
        }
    }
}
