//! Model 123, immediate controls.
pub(super) const TEXT: &str = r#"{
  "id": 123,
  "group": {
    "name": "controls",
    "type": "group",
    "points": [
      {"name": "ID", "type": "uint16", "size": 1},
      {"name": "L", "type": "uint16", "size": 1},
      {"name": "Conn_WinTms", "type": "uint16", "size": 1, "access": "RW"},
      {"name": "Conn_RvrtTms", "type": "uint16", "size": 1, "access": "RW"},
      {"name": "Conn", "type": "enum16", "size": 1, "access": "RW"},
      {"name": "WMaxLimPct", "type": "uint16", "size": 1, "sf": "WMaxLimPct_SF", "access": "RW"},
      {"name": "WMaxLimPct_WinTms", "type": "uint16", "size": 1, "access": "RW"},
      {"name": "WMaxLimPct_RvrtTms", "type": "uint16", "size": 1, "access": "RW"},
      {"name": "WMaxLimPct_RmpTms", "type": "uint16", "size": 1, "access": "RW"},
      {"name": "WMaxLim_Ena", "type": "enum16", "size": 1, "access": "RW"},
      {"name": "OutPFSet", "type": "int16", "size": 1, "sf": "OutPFSet_SF", "access": "RW"},
      {"name": "OutPFSet_WinTms", "type": "uint16", "size": 1, "access": "RW"},
      {"name": "OutPFSet_RvrtTms", "type": "uint16", "size": 1, "access": "RW"},
      {"name": "OutPFSet_RmpTms", "type": "uint16", "size": 1, "access": "RW"},
      {"name": "OutPFSet_Ena", "type": "enum16", "size": 1, "access": "RW"},
      {"name": "VArWMaxPct", "type": "int16", "size": 1, "sf": "VArPct_SF", "access": "RW"},
      {"name": "VArMaxPct", "type": "int16", "size": 1, "sf": "VArPct_SF", "access": "RW"},
      {"name": "VArAvalPct", "type": "int16", "size": 1, "sf": "VArPct_SF", "access": "RW"},
      {"name": "VArPct_WinTms", "type": "uint16", "size": 1, "access": "RW"},
      {"name": "VArPct_RvrtTms", "type": "uint16", "size": 1, "access": "RW"},
      {"name": "VArPct_RmpTms", "type": "uint16", "size": 1, "access": "RW"},
      {"name": "VArPct_Mod", "type": "enum16", "size": 1, "access": "RW"},
      {"name": "VArPct_Ena", "type": "enum16", "size": 1, "access": "RW"},
      {"name": "WMaxLimPct_SF", "type": "sunssf", "size": 1},
      {"name": "OutPFSet_SF", "type": "sunssf", "size": 1},
      {"name": "VArPct_SF", "type": "sunssf", "size": 1}
    ]
  }
}"#;
