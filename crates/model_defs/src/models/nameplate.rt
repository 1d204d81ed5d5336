//! Model 120, nameplate: the ratings of the device.
pub(super) const TEXT: &str = r#"{
  "id": 120,
  "group": {
    "name": "nameplate",
    "type": "group",
    "points": [
      {"name": "ID", "type": "uint16", "size": 1},
      {"name": "L", "type": "uint16", "size": 1},
      {"name": "DERTyp", "type": "enum16", "size": 1},
      {"name": "WRtg", "type": "uint16", "size": 1, "sf": "WRtg_SF"},
      {"name": "WRtg_SF", "type": "sunssf", "size": 1},
      {"name": "VARtg", "type": "uint16", "size": 1, "sf": "VARtg_SF"},
      {"name": "VARtg_SF", "type": "sunssf", "size": 1},
      {"name": "VArRtgQ1", "type": "int16", "size": 1, "sf": "VArRtg_SF"},
      {"name": "VArRtgQ2", "type": "int16", "size": 1, "sf": "VArRtg_SF"},
      {"name": "VArRtgQ3", "type": "int16", "size": 1, "sf": "VArRtg_SF"},
      {"name": "VArRtgQ4", "type": "int16", "size": 1, "sf": "VArRtg_SF"},
      {"name": "VArRtg_SF", "type": "sunssf", "size": 1},
      {"name": "ARtg", "type": "uint16", "size": 1, "sf": "ARtg_SF"},
      {"name": "ARtg_SF", "type": "sunssf", "size": 1},
      {"name": "PFRtgQ1", "type": "int16", "size": 1, "sf": "PFRtg_SF"},
      {"name": "PFRtgQ2", "type": "int16", "size": 1, "sf": "PFRtg_SF"},
      {"name": "PFRtgQ3", "type": "int16", "size": 1, "sf": "PFRtg_SF"},
      {"name": "PFRtgQ4", "type": "int16", "size": 1, "sf": "PFRtg_SF"},
      {"name": "PFRtg_SF", "type": "sunssf", "size": 1},
      {"name": "WHRtg", "type": "uint16", "size": 1, "sf": "WHRtg_SF"},
      {"name": "WHRtg_SF", "type": "sunssf", "size": 1},
      {"name": "AhrRtg", "type": "uint16", "size": 1, "sf": "AhrRtg_SF"},
      {"name": "AhrRtg_SF", "type": "sunssf", "size": 1},
      {"name": "MaxChaRte", "type": "uint16", "size": 1, "sf": "MaxChaRte_SF"},
      {"name": "MaxChaRte_SF", "type": "sunssf", "size": 1},
      {"name": "MaxDisChaRte", "type": "uint16", "size": 1, "sf": "MaxDisChaRte_SF"},
      {"name": "MaxDisChaRte_SF", "type": "sunssf", "size": 1},
      {"name": "Pad", "type": "pad", "size": 1}
    ]
  }
}"#;
