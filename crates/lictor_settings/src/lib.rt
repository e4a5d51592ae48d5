// The check of the settings, and the configuration that they mean.
#![tactic(auto)]

ghost use Rattle.std.specs.Prelude.{◌≡◌};
ghost use Rattle.lictor_settings.specs.Settings.{outside as Spec·outside, bad_code, bad_size, bad_float, crossed_of, bad_box, check_of, check_number, config_of};

use lictor_core::chunk::{ActionKind, MAX_D, MAX_H, MAX_POS, kind_of};
use lictor_core::envelope::{
    ClampMode, FuseConfig, RearmPolicy, Settings, clamp_mode_of, rearm_of,
};
use lictor_core::state::{FuseMode, mode_of};

// Why settings are refused: causes 1 to 4 of the refusal table by name, and by the paper's number.
#[derive(Clone, Copy, Debug, PartialEq, Eq)]
pub enum SettingsFault {
    BadCode = 1,
    BadSize,
    NotFinite,
    BoxCrossed,
}

// The paper's number of an answer, 0 for accepted settings.
pub fn check_number(c: Result<(), SettingsFault>) -> u8
    ensures { result ≡ check_number c }
{
    match c {
        Ok(()) => 0,
        Err(fault) => fault as u8,
    }
}

#[tactic(auto, unfolding(crate::specs::Settings::bad_code))]
fn bad_code(settings: Settings) -> bool
    ensures { result ≡ bad_code settings }
{
    FuseMode::try_from(settings.mode).is_err()
        || ActionKind::try_from(settings.kind).is_err()
        || ClampMode::try_from(settings.clamp).is_err()
        || RearmPolicy::try_from(settings.rearm).is_err()
}

fn outside(low: usize, high: usize, n: usize) -> bool
    ensures { result ≡ Spec·outside low high n }
{
    !(low..=high).contains(&n)
}

#[tactic(auto, unfolding(crate::specs::Settings::bad_size))]
fn bad_size(settings: Settings) -> bool
    ensures { result ≡ bad_size settings }
{
    outside(1, MAX_D, settings.dim as usize)
        || outside(1, MAX_POS, settings.pos_dim as usize)
        || outside(1, MAX_H, settings.horizon as usize)
        || outside(1, settings.horizon as usize, settings.exec as usize)
}

#[tactic(auto, unfolding(crate::specs::Settings::bad_float))]
fn bad_float(settings: Settings) -> bool
    ensures { result ≡ bad_float settings }
{
    let hyst = settings.hyst;
    fmath::some_bad(&[
        settings.dt,
        settings.inv_dt,
        settings.a_max,
        hyst.v_stop_eps,
        hyst.warn_margin,
    ]) || settings.calib.tau.is_nan()
        || fmath::some_bad(&settings.box_lo)
        || fmath::some_bad(&settings.box_hi)
}

// Whether a low end lies above its high end, among all pairs.
fn crossed(lo: [f64; MAX_POS], hi: [f64; MAX_POS]) -> bool
    ensures { result ≡ crossed_of lo hi }
{
    lo.iter().zip(&hi).any(|(l, h)| *l > *h)
}

#[tactic(auto, unfolding(crate::specs::Settings::bad_box))]
fn bad_box(settings: Settings) -> bool
    ensures { result ≡ bad_box settings }
{
    crossed(settings.box_lo, settings.box_hi)
}

// Causes 1 to 4, the first that is there.
#[tactic(auto, unfolding(crate::specs::Settings::check_of, lictor_core::specs::FirstThat::first_that, crate::specs::Settings::settings_table))]
pub fn check(settings: Settings) -> Result<(), SettingsFault>
    ensures { result ≡ check_of settings }
{
    if bad_code(settings) {
        return Err(SettingsFault::BadCode);
    }
    if bad_size(settings) {
        return Err(SettingsFault::BadSize);
    }
    if bad_float(settings) {
        return Err(SettingsFault::NotFinite);
    }
    if bad_box(settings) {
        return Err(SettingsFault::BoxCrossed);
    }
    Ok(())
}

// The configuration that settings mean. A code that is not listed is taken as the last case;
// `check` refuses them.
// Which pattern a NaN has is the program's choice.
#[tactic(auto, unfolding(crate::specs::Settings::config_of))]
pub fn config(settings: Settings) -> FuseConfig
    ensures { result ≡ config_of settings }
{
    // a row goes through a variable: the borrow checker wants it so
    let box_lo = settings.box_lo;
    let box_hi = settings.box_hi;
    FuseConfig {
        mode: mode_of(settings.mode),
        kind: kind_of(settings.kind),
        clamp: clamp_mode_of(settings.clamp),
        rearm: rearm_of(settings.rearm),
        dim: settings.dim as usize,
        pos_dim: settings.pos_dim as usize,
        horizon: settings.horizon as usize,
        exec: settings.exec as usize,
        dt: settings.dt,
        inv_dt: settings.inv_dt,
        a_max: settings.a_max,
        box_lo,
        box_hi,
        hyst: settings.hyst,
        window_mask: settings.window_mask,
        tier0_enabled: settings.tier0_enabled,
        calib: settings.calib,
    }
}
