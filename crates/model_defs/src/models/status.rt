//! Model 122, measurements and status.
pub(super) const TEXT: &str = r#"{
  "id": 122,
  "group": {
    "name": "status",
    "type": "group",
    "points": [
      {"name": "ID", "type": "uint16", "size": 1},
      {"name": "L", "type": "uint16", "size": 1},
      {"name": "PVConn", "type": "bitfield16", "size": 1},
      {"name": "StorConn", "type": "bitfield16", "size": 1},
      {"name": "ECPConn", "type": "bitfield16", "size": 1},
      {"name": "ActWh", "type": "acc64", "size": 4},
      {"name": "ActVAh", "type": "acc64", "size": 4},
      {"name": "ActVArhQ1", "type": "acc64", "size": 4},
      {"name": "ActVArhQ2", "type": "acc64", "size": 4},
      {"name": "ActVArhQ3", "type": "acc64", "size": 4},
      {"name": "ActVArhQ4", "type": "acc64", "size": 4},
      {"name": "VArAval", "type": "int16", "size": 1, "sf": "VArAval_SF"},
      {"name": "VArAval_SF", "type": "sunssf", "size": 1},
      {"name": "WAval", "type": "uint16", "size": 1, "sf": "WAval_SF"},
      {"name": "WAval_SF", "type": "sunssf", "size": 1},
      {"name": "StSetLimMsk", "type": "bitfield32", "size": 2},
      {"name": "StActCtl", "type": "bitfield32", "size": 2},
      {"name": "TmSrc", "type": "string", "size": 4},
      {"name": "Tms", "type": "uint32", "size": 2},
      {"name": "RtSt", "type": "bitfield16", "size": 1},
      {"name": "Ris", "type": "uint16", "size": 1, "sf": "Ris_SF"},
      {"name": "Ris_SF", "type": "sunssf", "size": 1}
    ]
  }
}"#;
