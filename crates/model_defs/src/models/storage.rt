//! Model 124, storage control.
pub(super) const TEXT: &str = r#"{
  "id": 124,
  "group": {
    "name": "storage",
    "type": "group",
    "points": [
      {"name": "ID", "type": "uint16", "size": 1},
      {"name": "L", "type": "uint16", "size": 1},
      {"name": "WChaMax", "type": "uint16", "size": 1, "sf": "WChaMax_SF", "access": "RW"},
      {"name": "WChaGra", "type": "uint16", "size": 1, "sf": "WChaDisChaGra_SF", "access": "RW"},
      {"name": "WDisChaGra", "type": "uint16", "size": 1, "sf": "WChaDisChaGra_SF", "access": "RW"},
      {"name": "StorCtl_Mod", "type": "bitfield16", "size": 1, "access": "RW"},
      {"name": "VAChaMax", "type": "uint16", "size": 1, "sf": "VAChaMax_SF", "access": "RW"},
      {"name": "MinRsvPct", "type": "uint16", "size": 1, "sf": "MinRsvPct_SF", "access": "RW"},
      {"name": "ChaState", "type": "uint16", "size": 1, "sf": "ChaState_SF"},
      {"name": "StorAval", "type": "uint16", "size": 1, "sf": "StorAval_SF"},
      {"name": "InBatV", "type": "uint16", "size": 1, "sf": "InBatV_SF"},
      {"name": "ChaSt", "type": "enum16", "size": 1},
      {"name": "OutWRte", "type": "int16", "size": 1, "sf": "InOutWRte_SF", "access": "RW"},
      {"name": "InWRte", "type": "int16", "size": 1, "sf": "InOutWRte_SF", "access": "RW"},
      {"name": "InOutWRte_WinTms", "type": "uint16", "size": 1, "access": "RW"},
      {"name": "InOutWRte_RvrtTms", "type": "uint16", "size": 1, "access": "RW"},
      {"name": "InOutWRte_RmpTms", "type": "uint16", "size": 1, "access": "RW"},
      {"name": "ChaGriSet", "type": "enum16", "size": 1, "access": "RW"},
      {"name": "WChaMax_SF", "type": "sunssf", "size": 1},
      {"name": "WChaDisChaGra_SF", "type": "sunssf", "size": 1},
      {"name": "VAChaMax_SF", "type": "sunssf", "size": 1},
      {"name": "MinRsvPct_SF", "type": "sunssf", "size": 1},
      {"name": "ChaState_SF", "type": "sunssf", "size": 1},
      {"name": "StorAval_SF", "type": "sunssf", "size": 1},
      {"name": "InBatV_SF", "type": "sunssf", "size": 1},
      {"name": "InOutWRte_SF", "type": "sunssf", "size": 1}
    ]
  }
}"#;
