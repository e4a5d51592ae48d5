// The strict trip (conformal.rs).
ghost use Rattle.std.specs.Prelude.{◌≡◌};
ghost use Rattle.lictor_detect.specs.Window.{trip_of};

use lictor_core::envelope::Calibration;
use lictor_core::scores::Scores;

// The score is above the threshold; never with a NaN.
#[tactic(auto, unfolding(crate::specs::Window::trip_of))]
pub fn trip(cal: Calibration, sc: Scores) -> bool
    ensures { result ≡ trip_of cal sc }
{
    sc.s > cal.tau
}
