//! The types of points.
ghost use Rattle.std.specs.Prelude.{◌≡◌, ◌≢◌};
ghost use Rattle.point_types.specs.Point.{size_of};

/// The kind of a point's registers (SunSpec Device Information Model Specification, the table of types).
#[derive(Clone, Copy, PartialEq, Eq, Debug)]
pub enum Kind {
    Int16,
    Uint16,
    Acc16,
    Enum16,
    Bitfield16,
    Sunssf,
    Pad,
    Int32,
    Uint32,
    Enum32,
    Bitfield32,
    Acc32,
    Int64,
    Uint64,
    Acc64,
    String,
}

/// The table of the numeric kinds, handed to another macro after its context: the kind, its registers, how their
/// number is read, and the number of the unimplemented words.
macro_rules! numeric_kinds {
    ($then:ident $context:tt) => {
        $then! { $context
            Int16 1 Signed 0x8000;
            Uint16 1 Unsigned 0xFFFF;
            Acc16 1 Unsigned 0;
            Enum16 1 Unsigned 0xFFFF;
            Bitfield16 1 Flags 0xFFFF;
            Sunssf 1 Signed 0x8000;
            Pad 1 Unsigned 0x8000;
            Int32 2 Signed 0x8000_0000;
            Uint32 2 Unsigned 0xFFFF_FFFF;
            Enum32 2 Unsigned 0xFFFF_FFFF;
            Bitfield32 2 Flags 0xFFFF_FFFF;
            Acc32 2 Unsigned 0;
            Int64 4 Signed 0x8000_0000_0000_0000;
            Uint64 4 Unsigned 0xFFFF_FFFF_FFFF_FFFF;
            Acc64 4 Unsigned 0;
        }
    };
}

pub(crate) use numeric_kinds;

macro_rules! size_by {
    (($kind:expr) $($name:ident $size:literal $form:ident $unimplemented:literal;)*) => {
        match $kind {
            $(Kind::$name => $size,)*
            Kind::String => unreachable!(),
        }
    };
}

impl Kind {
    /// The number of registers of a point of this kind; a string's size is its point's.
    pub fn size(self) -> usize
        requires { self ≢ Kind.String }
        ensures { result ≡ size_of self }
    {
        numeric_kinds!(size_by(self))
    }
}
