//! The elementary types of programs.
ghost use Rattle.std.specs.Prelude.{◌≡◌};
ghost use Rattle.point_types.specs.Value.{high_of, low_of};

/// An elementary data type of Instruction List (IEC 61131-3 edition 2, 2.3.1): BOOL, the signed
/// whole numbers with 8, 16, 32 and 64 bits, and the unsigned ones with 8, 16 and 32.
#[derive(Clone, Copy, PartialEq, Eq, Debug)]
pub enum IlType {
    Bool,
    Sint,
    Int,
    Dint,
    Lint,
    Usint,
    Uint,
    Udint,
}

impl IlType {
    /// The least number of the type; 0 (FALSE) for BOOL.
    pub fn low(self) -> i64
        ensures { result ≡ low_of self }
    {
        match self {
            IlType::Bool | IlType::Usint | IlType::Uint | IlType::Udint => 0,
            IlType::Sint => i8::MIN as i64,
            IlType::Int => i16::MIN as i64,
            IlType::Dint => i32::MIN as i64,
            IlType::Lint => i64::MIN,
        }
    }

    /// The greatest number of the type; 1 (TRUE) for BOOL.
    pub fn high(self) -> i64
        ensures { result ≡ high_of self }
    {
        match self {
            IlType::Bool => 1,
            IlType::Sint => i8::MAX as i64,
            IlType::Int => i16::MAX as i64,
            IlType::Dint => i32::MAX as i64,
            IlType::Lint => i64::MAX,
            IlType::Usint => u8::MAX as i64,
            IlType::Uint => u16::MAX as i64,
            IlType::Udint => u32::MAX as i64,
        }
    }
}
