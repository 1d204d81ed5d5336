//! The units of the points of published models (SunSpec Device Information Model Specification, units of a point).
use crate::handed_defs::HandedDefs;
use crate::point_name::point_name;
use crate::survey::Survey;
use note_text::push_escaped;
use site_model::SiteTag;
use std::alloc::AllocError;

/// Names of points, each with the unit of its value.
type Units = &'static [(&'static str, &'static str)];

/// Models 101 to 103.
const INVERTER: Units = &[
    ("A", "A"),
    ("AphA", "A"),
    ("AphB", "A"),
    ("AphC", "A"),
    ("PPVphAB", "V"),
    ("PPVphBC", "V"),
    ("PPVphCA", "V"),
    ("PhVphA", "V"),
    ("PhVphB", "V"),
    ("PhVphC", "V"),
    ("W", "W"),
    ("Hz", "Hz"),
    ("VA", "VA"),
    ("VAr", "var"),
    ("PF", "%"),
    ("WH", "Wh"),
    ("DCA", "A"),
    ("DCV", "V"),
    ("DCW", "W"),
    ("TmpCab", "C"),
    ("TmpSnk", "C"),
    ("TmpTrns", "C"),
    ("TmpOt", "C"),
];

/// Model 120.
const NAMEPLATE: Units = &[
    ("WRtg", "W"),
    ("VARtg", "VA"),
    ("VArRtgQ1", "var"),
    ("VArRtgQ2", "var"),
    ("VArRtgQ3", "var"),
    ("VArRtgQ4", "var"),
    ("ARtg", "A"),
    ("WHRtg", "Wh"),
    ("AhrRtg", "Ah"),
    ("MaxChaRte", "W"),
    ("MaxDisChaRte", "W"),
];

/// Model 121.
const SETTINGS: Units = &[
    ("WMax", "W"),
    ("VRef", "V"),
    ("VRefOfs", "V"),
    ("VMax", "V"),
    ("VMin", "V"),
    ("VAMax", "VA"),
    ("VArMaxQ1", "var"),
    ("VArMaxQ2", "var"),
    ("VArMaxQ3", "var"),
    ("VArMaxQ4", "var"),
    ("WGra", "% WMax/s"),
    ("MaxRmpRte", "% WGra"),
    ("ECPNomHz", "Hz"),
];

/// Model 122.
const STATUS: Units = &[
    ("ActWh", "Wh"),
    ("ActVAh", "VAh"),
    ("ActVArhQ1", "varh"),
    ("ActVArhQ2", "varh"),
    ("ActVArhQ3", "varh"),
    ("ActVArhQ4", "varh"),
    ("VArAval", "var"),
    ("WAval", "W"),
    ("Tms", "s"),
    ("Ris", "ohm"),
];

/// Model 123.
const CONTROLS: Units = &[
    ("Conn_WinTms", "s"),
    ("Conn_RvrtTms", "s"),
    ("WMaxLimPct", "% WMax"),
    ("WMaxLimPct_WinTms", "s"),
    ("WMaxLimPct_RvrtTms", "s"),
    ("WMaxLimPct_RmpTms", "s"),
    ("OutPFSet_WinTms", "s"),
    ("OutPFSet_RvrtTms", "s"),
    ("OutPFSet_RmpTms", "s"),
    ("VArWMaxPct", "% WMax"),
    ("VArMaxPct", "% VArMax"),
    ("VArAvalPct", "% VArAval"),
    ("VArPct_WinTms", "s"),
    ("VArPct_RvrtTms", "s"),
    ("VArPct_RmpTms", "s"),
];

/// Model 124.
const STORAGE: Units = &[
    ("WChaMax", "W"),
    ("WChaGra", "% WChaMax/s"),
    ("WDisChaGra", "% WChaMax/s"),
    ("VAChaMax", "VA"),
    ("MinRsvPct", "% WChaMax"),
    ("ChaState", "% AhrRtg"),
    ("StorAval", "Ah"),
    ("InBatV", "V"),
    ("OutWRte", "% WDisChaMax"),
    ("InWRte", "% WChaMax"),
    ("InOutWRte_WinTms", "s"),
    ("InOutWRte_RvrtTms", "s"),
    ("InOutWRte_RmpTms", "s"),
];

/// Models 201 to 204.
const METER: Units = &[
    ("A", "A"),
    ("AphA", "A"),
    ("AphB", "A"),
    ("AphC", "A"),
    ("PhV", "V"),
    ("PhVphA", "V"),
    ("PhVphB", "V"),
    ("PhVphC", "V"),
    ("PPV", "V"),
    ("PPVphAB", "V"),
    ("PPVphBC", "V"),
    ("PPVphCA", "V"),
    ("Hz", "Hz"),
    ("W", "W"),
    ("WphA", "W"),
    ("WphB", "W"),
    ("WphC", "W"),
    ("VA", "VA"),
    ("VAphA", "VA"),
    ("VAphB", "VA"),
    ("VAphC", "VA"),
    ("VAR", "var"),
    ("VARphA", "var"),
    ("VARphB", "var"),
    ("VARphC", "var"),
    ("PF", "%"),
    ("PFphA", "%"),
    ("PFphB", "%"),
    ("PFphC", "%"),
    ("TotWhExp", "Wh"),
    ("TotWhExpPhA", "Wh"),
    ("TotWhExpPhB", "Wh"),
    ("TotWhExpPhC", "Wh"),
    ("TotWhImp", "Wh"),
    ("TotWhImpPhA", "Wh"),
    ("TotWhImpPhB", "Wh"),
    ("TotWhImpPhC", "Wh"),
];

/// Appends a blank and the unit of a tag's point, where it has one.
pub(crate) fn push_unit(
    text: &mut String,
    survey: &Survey<'_>,
    tag: &SiteTag,
) -> Result<(), AllocError> {
    push_unit_of(text, survey, tag.model, point_name(survey.models, tag))
}

/// Appends a blank and the unit of a model's point, where it has one.
pub(crate) fn push_unit_of(
    text: &mut String,
    survey: &Survey<'_>,
    model: u16,
    point: &str,
) -> Result<(), AllocError> {
    match unit_of(survey.handed, model, point) {
        Some(unit) => {
            text.push_str(" ")?;
            push_escaped(text, unit)
        }
        None => Ok(()),
    }
}

/// The unit of a model's point: by the definitions that are handed in, or else by the published ones. None where its number has
/// none, and for a model that isn't among these.
pub fn unit_of<'a>(handed: &'a HandedDefs, model: u16, point: &str) -> Option<&'a str> {
    handed
        .unit_of(model, point)
        .or(published_unit(model, point))
}

fn published_unit(model: u16, point: &str) -> Option<&'static str> {
    for (name, unit) in units_of(model) {
        if *name == point {
            return Some(*unit);
        }
    }
    None
}

fn units_of(model: u16) -> Units {
    match model {
        101..=103 => INVERTER,
        120 => NAMEPLATE,
        121 => SETTINGS,
        122 => STATUS,
        123 => CONTROLS,
        124 => STORAGE,
        201..=204 => METER,
        _ => &[],
    }
}
