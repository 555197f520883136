//! What a write of dmcontrol asks of the hart that it selects (RISC-V Debug Specification 1.0, "Debug Module Control" and "Run Control").

ghost use Rattle.std.specs.Prelude.{◌≡◌, Some};
ghost use Rattle.debug_model.specs.Module.{control_points};
ghost use Rattle.dbg_module.specs.Requests.{requested};

use crate::performed::Points;
use arrayvec::ArrayVec;
use debug_model::{Dmcontrol, Point};
use hart_debug::DebugHart;

/// Asks this of a hart, which has the selected number; the answer is what the journal has of it.
pub fn request(control: Dmcontrol, number: u8, hart: &mut DebugHart) -> Points
    requires { control.hartsello ≡ number }
    ensures points { result.items ≡ control_points control (Some hart.old) }
    ensures hart { hart.new ≡ requested control hart.old }
{
    let mut points = ArrayVec::new();
    if control.haltreq {
        hart.halt_request(true);
        points.push(Point::HaltReq(number));
    } else {
        if hart.halt_waits() {
            hart.halt_request(false);
            points.push(Point::HaltClear(number));
        }
        if control.resumereq {
            hart.resume_request();
            points.push(Point::ResumeReq(number));
        }
    }
    if control.ackhavereset {
        hart.ack_reset();
    }
    points
}
