// The K-of-N hit window: a shift register of 64 bits (window.rs).
ghost use Rattle.std.specs.Prelude.{◌≡◌};
ghost use Rattle.lictor_detect.specs.Window.{push_hit, hits_of};

use lictor_core::fuse::Window;

// The newest hit comes in at bit 0; the oldest bit drops out.
#[tactic(auto, unfolding(crate::specs::Window::push_hit, crate::specs::Window::hit_bit))]
pub fn push(w: Window, hit: bool, mask: u64) -> Window
    ensures { result ≡ push_hit w hit mask }
{
    Window {
        bits: (w.bits << 1 | u64::from(hit)) & mask,
    }
}

// The number of hits, 0 to 64.
#[tactic(auto, unfolding(crate::specs::Window::hits_of))]
pub fn hits(w: Window) -> u8
    ensures { result ≡ hits_of w }
{
    w.bits.count_ones() as u8
}
