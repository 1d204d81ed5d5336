//! Model 1, common: who made the device.
pub(super) const TEXT: &str = r#"{
  "id": 1,
  "group": {
    "name": "common",
    "type": "group",
    "points": [
      {"name": "ID", "type": "uint16", "size": 1},
      {"name": "L", "type": "uint16", "size": 1},
      {"name": "Mn", "type": "string", "size": 16},
      {"name": "Md", "type": "string", "size": 16},
      {"name": "Opt", "type": "string", "size": 8},
      {"name": "Vr", "type": "string", "size": 8},
      {"name": "SN", "type": "string", "size": 16},
      {"name": "DA", "type": "uint16", "size": 1, "access": "RW"},
      {"name": "Pad", "type": "pad", "size": 1}
    ]
  }
}"#;
