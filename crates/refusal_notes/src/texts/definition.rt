//! Texts on why a text defines no model.
use crate::explained::Explained;
use model_defs::DefFault;

impl Explained for DefFault {
    fn meaning(self) -> &'static str {
        match self {
            DefFault::NotJson => "the text is no JSON",
            DefFault::MissingKey => "a key is missing, or of another kind",
            DefFault::BadType => "a type or an access that isn't served, or an id outside 1..65534",
            DefFault::BadSize => "a size that isn't the type's number of registers",
            DefFault::DuplicateName => "two points of one name",
            DefFault::BadScalePoint => {
                "a scale factor that is no point of type sunssf, or a number outside -10..10"
            }
            DefFault::Repeating => "the group has groups of its own",
            DefFault::TooLong => "more than 123 registers after ID and L",
            DefFault::BadHeader => "the first two points aren't ID and L, both uint16",
            DefFault::OutOfMemory => "memory was refused",
        }
    }

    fn help(self) -> &'static str {
        match self {
            DefFault::NotJson => "look for a missing comma, quote or bracket",
            DefFault::MissingKey => {
                "add id, group and points, and to each point name, type and size"
            }
            DefFault::BadType =>
                "use a type of whole numbers or string, R or RW as access, and an id from 1 to 65534",
            DefFault::BadSize =>
                "write the type's number of registers, 1 for 16 bits, 2 for 32, 4 for 64, and at least 1 for a string",
            DefFault::DuplicateName => "rename one of the two",
            DefFault::BadScalePoint => {
                "name a point of type sunssf, or write a number from -10 to 10"
            }
            DefFault::Repeating =>
                "use a model without groups in its group: such models can't be used here",
            DefFault::TooLong => "take points away from the end: a model is read by one request",
            DefFault::BadHeader => "put ID and L first, both of type uint16",
            DefFault::OutOfMemory => "give the program more memory, and run the command again",
        }
    }
}
