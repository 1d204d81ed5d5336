//! Texts on why a text is no plant.
use crate::explained::Explained;
use inverter_sim::PlantFault;

impl Explained for PlantFault {
    fn meaning(self) -> &'static str {
        match self {
            PlantFault::NotToml => "the text is no TOML",
            PlantFault::MissingKey => "a key is missing, or of another kind",
            PlantFault::UnknownModel => {
                "a model without a definition, or one that its device doesn't have"
            }
            PlantFault::UnknownPoint => "the model has no point of this name",
            PlantFault::BadRange => "a number outside its limits",
            PlantFault::Duplicate => "a unit, a model, a point or a request that is used already",
            PlantFault::TooMany => "more than a plant may have",
            PlantFault::OutOfMemory => "memory was refused",
        }
    }

    fn help(self) -> &'static str {
        match self {
            PlantFault::NotToml => {
                "look for a missing quote, bracket or value, or a key that is there twice in one table"
            }
            PlantFault::MissingKey => {
                "add it: a device needs unit, models, wmax and available, a value model, point and raw"
            }
            PlantFault::UnknownModel => {
                "add it to the device's models, or hand in a definition with --def"
            }
            PlantFault::UnknownPoint => "take the name from the model's definition; case counts",
            PlantFault::BadRange =>
                "correct the number: models begin with 1, available has an entry, and a raw is within its point's words",
            PlantFault::Duplicate => "take one of the two away",
            PlantFault::TooMany => {
                "make it smaller: 64 devices, 16 models in one, 1,024 entries of available and 256 faults are the most"
            }
            PlantFault::OutOfMemory => "give the program more memory, and run the command again",
        }
    }
}
