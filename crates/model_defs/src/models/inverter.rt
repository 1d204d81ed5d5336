//! Models 101, 102 and 103, inverters of one, of split and of three phases: one layout.
macro_rules! inverter_text {
    ($id:literal) => {
        concat!(
            r#"{
  "id": "#,
            $id,
            r#",
  "group": {
    "name": "inverter",
    "type": "group",
    "points": [
      {"name": "ID", "type": "uint16", "size": 1},
      {"name": "L", "type": "uint16", "size": 1},
      {"name": "A", "type": "uint16", "size": 1, "sf": "A_SF"},
      {"name": "AphA", "type": "uint16", "size": 1, "sf": "A_SF"},
      {"name": "AphB", "type": "uint16", "size": 1, "sf": "A_SF"},
      {"name": "AphC", "type": "uint16", "size": 1, "sf": "A_SF"},
      {"name": "A_SF", "type": "sunssf", "size": 1},
      {"name": "PPVphAB", "type": "uint16", "size": 1, "sf": "V_SF"},
      {"name": "PPVphBC", "type": "uint16", "size": 1, "sf": "V_SF"},
      {"name": "PPVphCA", "type": "uint16", "size": 1, "sf": "V_SF"},
      {"name": "PhVphA", "type": "uint16", "size": 1, "sf": "V_SF"},
      {"name": "PhVphB", "type": "uint16", "size": 1, "sf": "V_SF"},
      {"name": "PhVphC", "type": "uint16", "size": 1, "sf": "V_SF"},
      {"name": "V_SF", "type": "sunssf", "size": 1},
      {"name": "W", "type": "int16", "size": 1, "sf": "W_SF"},
      {"name": "W_SF", "type": "sunssf", "size": 1},
      {"name": "Hz", "type": "uint16", "size": 1, "sf": "Hz_SF"},
      {"name": "Hz_SF", "type": "sunssf", "size": 1},
      {"name": "VA", "type": "int16", "size": 1, "sf": "VA_SF"},
      {"name": "VA_SF", "type": "sunssf", "size": 1},
      {"name": "VAr", "type": "int16", "size": 1, "sf": "VAr_SF"},
      {"name": "VAr_SF", "type": "sunssf", "size": 1},
      {"name": "PF", "type": "int16", "size": 1, "sf": "PF_SF"},
      {"name": "PF_SF", "type": "sunssf", "size": 1},
      {"name": "WH", "type": "acc32", "size": 2, "sf": "WH_SF"},
      {"name": "WH_SF", "type": "sunssf", "size": 1},
      {"name": "DCA", "type": "uint16", "size": 1, "sf": "DCA_SF"},
      {"name": "DCA_SF", "type": "sunssf", "size": 1},
      {"name": "DCV", "type": "uint16", "size": 1, "sf": "DCV_SF"},
      {"name": "DCV_SF", "type": "sunssf", "size": 1},
      {"name": "DCW", "type": "int16", "size": 1, "sf": "DCW_SF"},
      {"name": "DCW_SF", "type": "sunssf", "size": 1},
      {"name": "TmpCab", "type": "int16", "size": 1, "sf": "Tmp_SF"},
      {"name": "TmpSnk", "type": "int16", "size": 1, "sf": "Tmp_SF"},
      {"name": "TmpTrns", "type": "int16", "size": 1, "sf": "Tmp_SF"},
      {"name": "TmpOt", "type": "int16", "size": 1, "sf": "Tmp_SF"},
      {"name": "Tmp_SF", "type": "sunssf", "size": 1},
      {"name": "St", "type": "enum16", "size": 1},
      {"name": "StVnd", "type": "enum16", "size": 1},
      {"name": "Evt1", "type": "bitfield32", "size": 2},
      {"name": "Evt2", "type": "bitfield32", "size": 2},
      {"name": "EvtVnd1", "type": "bitfield32", "size": 2},
      {"name": "EvtVnd2", "type": "bitfield32", "size": 2},
      {"name": "EvtVnd3", "type": "bitfield32", "size": 2},
      {"name": "EvtVnd4", "type": "bitfield32", "size": 2}
    ]
  }
}"#
        )
    };
}

pub(super) const SINGLE_PHASE: &str = inverter_text!(101);

pub(super) const SPLIT_PHASE: &str = inverter_text!(102);

pub(super) const THREE_PHASE: &str = inverter_text!(103);
