//! Why a command refuses.
use crate::input_fault::RefusedInput;
use file_keys::Placed;
use il_assemble::AsmFault;
use il_reader::{Program, ReadFault};
use inverter_sim::{PlantFault, PlantPart};
use model_defs::{DefFault, ModelDef};
use scan_vm::{Trap, Trial};
use site_model::{Site, SiteFault, SitePart};
use verifier::Refused;

/// Why a command refuses, with what it made of its texts before: who tells of it needn't parse them again.
pub enum CommandRefusal {
    /// One of the definitions that were handed in is none.
    Definition(DefFault),
    /// The site file is none, by these definitions.
    Site(Vec<ModelDef>, Placed<SiteFault, SitePart>),
    /// The plant file is none, by these definitions.
    Plant(Vec<ModelDef>, Placed<PlantFault, PlantPart>),
    /// The text of the program, so many bytes long, can't be read.
    Unread(usize, ReadFault),
    /// The program has no code.
    Unassembled(Program, AsmFault),
    /// The verdict refuses the program's image for a site; that goes along where the command read it itself.
    Unverified(Program, Refused, Option<Site>),
    /// An input line of a trial gives nothing.
    Input(RefusedInput),
    /// A trial scan of the program stopped.
    Trapped(Program, Trial, Trap),
}

/// A call for whoever drops one: the proofs of the functions that own one needn't take it apart.
impl Drop for CommandRefusal {
    fn drop(self) {
        match self {
            CommandRefusal::Definition(_) => {}
            CommandRefusal::Site(_, _) => {}
            CommandRefusal::Plant(_, _) => {}
            CommandRefusal::Unread(_, _) => {}
            CommandRefusal::Unassembled(_, _) => {}
            CommandRefusal::Unverified(_, _, _) => {}
            CommandRefusal::Input(_) => {}
            CommandRefusal::Trapped(_, _, _) => {}
        }
    }
}

impl CommandRefusal {
    /// The same, where it is that a program is refused for this site, which the command read.
    pub(crate) fn with_site(self, site: Site) -> CommandRefusal {
        match self {
            CommandRefusal::Unverified(program, refused, _) => {
                CommandRefusal::Unverified(program, refused, Some(site))
            }
            other => other,
        }
    }
}
