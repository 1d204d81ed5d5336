//! Texts on why a text is no site.
use crate::explained::Explained;
use site_model::SiteFault;

impl Explained for SiteFault {
    fn meaning(self) -> &'static str {
        match self {
            SiteFault::NotToml => "the text is no TOML",
            SiteFault::MissingKey => "a key is missing, or of another kind",
            SiteFault::UnknownDevice => "no device has this name",
            SiteFault::UnknownModel => {
                "no definition has this ID, or it isn't among the gateway's models"
            }
            SiteFault::UnknownPoint => "the model has no point of this name",
            SiteFault::NotWritable => "the point is read only",
            SiteFault::BadRange => "a number outside its range",
            SiteFault::BadType => "a word that isn't allowed here, or keys that don't go together",
            SiteFault::Duplicate => "a name, a unit or a point that is used already",
            SiteFault::TooMany => "more than a site may have",
            SiteFault::OutOfMemory => "memory was refused",
        }
    }

    fn help(self) -> &'static str {
        match self {
            SiteFault::NotToml => {
                "look for a missing quote, bracket or value, or a key that is there twice in one table"
            }
            SiteFault::MissingKey => {
                "add the key; a tag needs name, access, model, point, type, exponent, low, high, and device for in and out"
            }
            SiteFault::UnknownDevice => "correct the name: device names are compared exactly",
            SiteFault::UnknownModel => {
                "correct it, add it to the gateway's models, or hand in a definition with --def"
            }
            SiteFault::UnknownPoint => "take the name from the model's definition; case counts",
            SiteFault::NotWritable => {
                "write to a point of a model for controls or settings, as those of 123, and read this one"
            }
            SiteFault::BadRange => {
                "correct the number: low is at most high, both within the type, and a default between them"
            }
            SiteFault::BadType => {
                "correct the word or take a key away; a tag has a name in lower case that is no word of Instruction List"
            }
            SiteFault::Duplicate => "rename, or take one of the two away",
            SiteFault::TooMany => {
                "split the site: 16 models, 64 devices, 1,024 tags and 256 served points are the most"
            }
            SiteFault::OutOfMemory => "give the program more memory, and run the command again",
        }
    }
}
