// Reasons (reason.rs).

// The numbers are those of the source, from 0.
#[derive(Clone, Copy, Debug, PartialEq, Eq)]
pub enum ReasonCode {
    Ok,
    ObserveOnly,
    WatchBand,
    ClampWorkspace,
    ClampSpeed,
    ClampAccel,
    ClampJerk,
    ClampReach,
    ClampContact,
    BrakeInfeasible,
    BrakeTier1Cp,
    BrakeClampBudget,
    Stopping,
    HeldStandstill,
    EscalateHoldTimeout,
    EscalateRearmBudget,
    EscalateTier1Persistent,
    FaultNonFinite,
    FaultSchema,
    FaultWatchdog,
    FaultBrakeTimeout,
    FaultInternal,
    RearmedAuto,
    RearmedAck,
    TerminatedAbort,
    TerminatedTimeout,
    TerminatedRetune,
    EpisodeEnd,
}
