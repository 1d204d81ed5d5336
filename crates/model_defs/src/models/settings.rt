//! Model 121, basic settings.
pub(super) const TEXT: &str = r#"{
  "id": 121,
  "group": {
    "name": "settings",
    "type": "group",
    "points": [
      {"name": "ID", "type": "uint16", "size": 1},
      {"name": "L", "type": "uint16", "size": 1},
      {"name": "WMax", "type": "uint16", "size": 1, "sf": "WMax_SF", "access": "RW"},
      {"name": "VRef", "type": "uint16", "size": 1, "sf": "VRef_SF", "access": "RW"},
      {"name": "VRefOfs", "type": "int16", "size": 1, "sf": "VRefOfs_SF", "access": "RW"},
      {"name": "VMax", "type": "uint16", "size": 1, "sf": "VMinMax_SF", "access": "RW"},
      {"name": "VMin", "type": "uint16", "size": 1, "sf": "VMinMax_SF", "access": "RW"},
      {"name": "VAMax", "type": "uint16", "size": 1, "sf": "VAMax_SF", "access": "RW"},
      {"name": "VArMaxQ1", "type": "int16", "size": 1, "sf": "VArMax_SF", "access": "RW"},
      {"name": "VArMaxQ2", "type": "int16", "size": 1, "sf": "VArMax_SF", "access": "RW"},
      {"name": "VArMaxQ3", "type": "int16", "size": 1, "sf": "VArMax_SF", "access": "RW"},
      {"name": "VArMaxQ4", "type": "int16", "size": 1, "sf": "VArMax_SF", "access": "RW"},
      {"name": "WGra", "type": "uint16", "size": 1, "sf": "WGra_SF", "access": "RW"},
      {"name": "PFMinQ1", "type": "int16", "size": 1, "sf": "PFMin_SF", "access": "RW"},
      {"name": "PFMinQ2", "type": "int16", "size": 1, "sf": "PFMin_SF", "access": "RW"},
      {"name": "PFMinQ3", "type": "int16", "size": 1, "sf": "PFMin_SF", "access": "RW"},
      {"name": "PFMinQ4", "type": "int16", "size": 1, "sf": "PFMin_SF", "access": "RW"},
      {"name": "VArAct", "type": "enum16", "size": 1, "access": "RW"},
      {"name": "ClcTotVA", "type": "enum16", "size": 1, "access": "RW"},
      {"name": "MaxRmpRte", "type": "uint16", "size": 1, "sf": "MaxRmpRte_SF", "access": "RW"},
      {"name": "ECPNomHz", "type": "uint16", "size": 1, "sf": "ECPNomHz_SF", "access": "RW"},
      {"name": "ConnPh", "type": "enum16", "size": 1, "access": "RW"},
      {"name": "WMax_SF", "type": "sunssf", "size": 1},
      {"name": "VRef_SF", "type": "sunssf", "size": 1},
      {"name": "VRefOfs_SF", "type": "sunssf", "size": 1},
      {"name": "VMinMax_SF", "type": "sunssf", "size": 1},
      {"name": "VAMax_SF", "type": "sunssf", "size": 1},
      {"name": "VArMax_SF", "type": "sunssf", "size": 1},
      {"name": "WGra_SF", "type": "sunssf", "size": 1},
      {"name": "PFMin_SF", "type": "sunssf", "size": 1},
      {"name": "MaxRmpRte_SF", "type": "sunssf", "size": 1},
      {"name": "ECPNomHz_SF", "type": "sunssf", "size": 1}
    ]
  }
}"#;
