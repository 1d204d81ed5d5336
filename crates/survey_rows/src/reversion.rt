//! The times after which a device ends by itself what was written to it.
ghost use Rattle.std.specs.Prelude.{◌≡◌, Some, option_map};
ghost use Rattle.survey_rows.specs.Reverting.{controls_times, der_times, reversion_of, reversion_point, storage_times, time_in};

/// What comes of such a time.
#[derive(Clone, Copy, PartialEq, Eq, Debug)]
pub(crate) enum Reversion {
    /// Nothing ends what was written.
    Never,
    /// It is less than two periods: one scan without a write ends it.
    WithinPeriods,
    /// It is less than twice the time after which a write is repeated: one lost write ends it.
    WithinRewrites,
    /// It lasts as long as it is written.
    Lasts,
}

/// What comes of a time of so many seconds, None where the device has none. A write is made each `every` milliseconds, or is
/// repeated after `rewrite` seconds.
pub(crate) fn reversion_of(seconds: Option<u32>, every: u32, rewrite: u16) -> Reversion
    ensures { result ≡ reversion_of seconds every rewrite }
{
    match seconds {
        Some(seconds) => reversion_after(seconds, every, rewrite),
        None => Reversion::Never,
    }
}

fn reversion_after(seconds: u32, every: u32, rewrite: u16) -> Reversion
    ensures { result ≡ reversion_of (Some seconds) every rewrite }
{
    if seconds == 0 {
        Reversion::Never
    } else if u64::from(seconds) * 1000 < 2 * u64::from(every) {
        Reversion::WithinPeriods
    } else if u64::from(seconds) < 2 * u64::from(rewrite) {
        Reversion::WithinRewrites
    } else {
        Reversion::Lasts
    }
}

/// The point of a model that says for how many seconds another one of it counts; None where no such point is known (SunSpec
/// Information Model Reference, models 123, 124 and 704).
pub(crate) fn reversion_point(model: u16, point: &str) -> Option<&'static str>
    ensures { option_map (λ name. name.now) result ≡ reversion_point model point.now }
{
    match model {
        123 => controls_time(point),
        124 => storage_time(point),
        704 => der_time(point),
        _ => None,
    }
}

fn controls_time(point: &str) -> Option<&'static str>
    ensures { option_map (λ name. name.now) result ≡ time_in controls_times point.now }
{
    match point {
        "Conn" => Some("Conn_RvrtTms"),
        "WMaxLimPct" => Some("WMaxLimPct_RvrtTms"),
        "WMaxLim_Ena" => Some("WMaxLimPct_RvrtTms"),
        "OutPFSet" => Some("OutPFSet_RvrtTms"),
        "OutPFSet_Ena" => Some("OutPFSet_RvrtTms"),
        "VArWMaxPct" => Some("VArPct_RvrtTms"),
        "VArMaxPct" => Some("VArPct_RvrtTms"),
        "VArAvalPct" => Some("VArPct_RvrtTms"),
        "VArPct_Mod" => Some("VArPct_RvrtTms"),
        "VArPct_Ena" => Some("VArPct_RvrtTms"),
        _ => None,
    }
}

fn storage_time(point: &str) -> Option<&'static str>
    ensures { option_map (λ name. name.now) result ≡ time_in storage_times point.now }
{
    match point {
        "OutWRte" => Some("InOutWRte_RvrtTms"),
        "InWRte" => Some("InOutWRte_RvrtTms"),
        _ => None,
    }
}

fn der_time(point: &str) -> Option<&'static str>
    ensures { option_map (λ name. name.now) result ≡ time_in der_times point.now }
{
    match point {
        "PFWInjEna" => Some("PFWInjRvrtTms"),
        "PFWAbsEna" => Some("PFWAbsRvrtTms"),
        "WMaxLimPct" => Some("WMaxLimPctRvrtTms"),
        "WMaxLimPctEna" => Some("WMaxLimPctRvrtTms"),
        "WSet" => Some("WSetRvrtTms"),
        "WSetPct" => Some("WSetRvrtTms"),
        "WSetMod" => Some("WSetRvrtTms"),
        "WSetEna" => Some("WSetRvrtTms"),
        "VarSet" => Some("VarSetRvrtTms"),
        "VarSetPct" => Some("VarSetRvrtTms"),
        "VarSetMod" => Some("VarSetRvrtTms"),
        "VarSetPri" => Some("VarSetRvrtTms"),
        "VarSetEna" => Some("VarSetRvrtTms"),
        _ => None,
    }
}
