//! Lines to print with their status, and how they are written.
ghost use Rattle.std.specs.Prelude.{◌≡◌, ◌≢◌, ◌⊎◌, string_bytes, IfOk, OnOk};
ghost use Rattle.il_assemble.specs.Word as assembling;
ghost use Rattle.il_assemble.specs.declared.fault.AsmFaultKind.TheVariants as asm_fault;
ghost use Rattle.il_reader.specs.Fault as reading;
ghost use Rattle.il_reader.specs.declared.fault.ReadFaultKind.TheVariants as read_fault;
ghost use Rattle.inverter_sim.specs.Fault as of_plant;
ghost use Rattle.inverter_sim.specs.declared.fault.PlantFault.TheVariants as plant_fault;
ghost use Rattle.modbus_frame.specs.Fault.{link_fault_word};
ghost use Rattle.model_defs.specs.Fault as definition;
ghost use Rattle.model_defs.specs.declared.fault.DefFault.TheVariants as def_fault;
ghost use Rattle.site_model.specs.Fault as of_site;
ghost use Rattle.site_model.specs.declared.fault.SiteFault.TheVariants as site_fault;
ghost use Rattle.facts.specs.Word as verdict_word;
ghost use Rattle.facts.specs.declared.refusal.RefusalKind.TheVariants as refusal;
ghost use Rattle.commands.specs.Printed.{IsUnlinked};
ghost use Rattle.commands.specs.Report.{accepted_lines, bad_definition_line, bad_plant_line, bad_site_line, link_line, no_memory_line, unassembled_line, unread_line, unusable_line, unverified_line};
ghost use Rattle.commands.specs.Told.{IsTold, refused_with};

use crate::refusal::CommandRefusal;
use crate::report::{
    accepted, link_failed, no_plant, no_site, unassembled, undefined, unread, unusable, unverified,
};
use crate::writing::write_bytes;
use file_keys::Placed;
use il_assemble::{AsmFault, AsmFaultKind};
use il_reader::{Program, ReadFault, ReadFaultKind};
use inverter_sim::{PlantFault, PlantPart};
use modbus_frame::LinkFault;
use model_defs::{DefFault, ModelDef};
use site_model::{Site, SiteFault, SitePart};
use std::alloc::{AllocError, Global};
use std::io::Write;
use std::marker::Model;
use verifier::{RefusalKind, Refused};

/// The status of a link that failed.
pub const FAILED_LINK: u8 = 3;

/// Lines to print, and the status that goes with them.
#[derive(Drop)]
pub struct CommandOutcome {
    pub lines: Vec<u8>,
    pub status: u8,
    /// Why a command refuses; contracts don't see it.
    pub cause: Option<CommandRefusal>,
}

impl Model for CommandOutcome {
    ghost use Rattle.commands.specs.Told.{Told};

    ghost Value = { Told };

    ghost view = { λ o. record { lines = o.lines.items; status = o.status } };
}

impl CommandOutcome {
    /// The line of a refusal, with status 1.
    pub fn refused(line: String) -> CommandOutcome
        ensures { result ≡ refused_with (string_bytes line) }
    {
        CommandOutcome {
            lines: line.into_bytes(),
            status: 1,
            cause: None,
        }
    }

    /// The line of a refusal for this cause, with status 1.
    pub(crate) fn caused(line: String, cause: CommandRefusal) -> CommandOutcome
        ensures { result ≡ refused_with (string_bytes line) }
    {
        let mut outcome = CommandOutcome::refused(line);
        outcome.cause = Some(cause);
        outcome
    }

    /// The lines of a text that is printed, with status 0.
    pub(crate) fn listed(text: String) -> CommandOutcome
        ensures { result ≡ record { lines = string_bytes text; status = 0 } }
    {
        CommandOutcome {
            lines: text.into_bytes(),
            status: 0,
            cause: None,
        }
    }

    /// The lines `accepted` and `budget N`, with status 0.
    pub fn accepted(alloc: Global, budget: u32) -> Result<CommandOutcome, AllocError>
        ensures { IfOk result (λ o. o ≡ record { lines = accepted_lines budget; status = 0 }) }
    {
        let lines = accepted(alloc, budget)?;
        Ok(CommandOutcome {
            lines: lines.into_bytes(),
            status: 0,
            cause: None,
        })
    }

    /// The same, with the site that the command read for its program.
    pub(crate) fn with_site(self, site: Site) -> CommandOutcome
        ensures { result ≡ self }
    {
        let CommandOutcome {
            lines,
            status,
            cause,
        } = self;
        CommandOutcome {
            lines,
            status,
            cause: for_site(cause, site),
        }
    }

    /// The line of definitions of which one is none, with status 1; none where memory was refused.
    pub(crate) fn undefined(alloc: Global, fault: DefFault) -> Result<CommandOutcome, AllocError>
        ensures real { OnOk result (fault ≢ def_fault.OutOfMemory) }
        ensures told { IfOk result (λ o. o ≡ refused_with (bad_definition_line (definition.fault_word fault))) }
    {
        if let DefFault::OutOfMemory = fault {
            return Err(AllocError);
        }
        let line = undefined(alloc, fault.word())?;
        Ok(CommandOutcome::caused(line, CommandRefusal::Definition(fault)))
    }

    /// The line of a site file that is none by these definitions, with status 1; none where memory was refused.
    pub(crate) fn no_site(
        alloc: Global,
        models: Vec<ModelDef>,
        placed: Placed<SiteFault, SitePart>,
    ) -> Result<CommandOutcome, AllocError>
        ensures real { OnOk result (placed.fault ≢ site_fault.OutOfMemory) }
        ensures told { IfOk result (λ o. o ≡ refused_with (bad_site_line (of_site.fault_word placed.fault))) }
    {
        match site_line(alloc, placed.fault) {
            Ok(line) => Ok(CommandOutcome::caused(line, CommandRefusal::Site(models, placed))),
            Err(AllocError) => Err(AllocError),
        }
    }

    /// The line of a plant file that is none by these definitions, with status 1; none where memory was refused.
    pub(crate) fn no_plant(
        alloc: Global,
        models: Vec<ModelDef>,
        placed: Placed<PlantFault, PlantPart>,
    ) -> Result<CommandOutcome, AllocError>
        ensures real { OnOk result (placed.fault ≢ plant_fault.OutOfMemory) }
        ensures told { IfOk result (λ o. o ≡ refused_with (bad_plant_line (of_plant.fault_word placed.fault))) }
    {
        match plant_line(alloc, placed.fault) {
            Ok(line) => Ok(CommandOutcome::caused(line, CommandRefusal::Plant(models, placed))),
            Err(AllocError) => Err(AllocError),
        }
    }

    /// The line of a text that is no program, with status 1; none where memory was refused.
    pub fn unread(alloc: Global, text: &str, fault: ReadFault) -> Result<CommandOutcome, AllocError>
        ensures real { OnOk result (fault.kind ≢ read_fault.OutOfMemory) }
        ensures told { IfOk result (λ o. o ≡ refused_with (unread_line (reading.word_of fault.kind) fault.line)) }
    {
        if let ReadFaultKind::OutOfMemory = fault.kind {
            return Err(AllocError);
        }
        let line = unread(alloc, fault.kind.word(), fault.line)?;
        Ok(CommandOutcome::caused(line, CommandRefusal::Unread(text.len(), fault)))
    }

    /// The line of a program without code, with status 1; none where memory was refused.
    pub(crate) fn unassembled(
        alloc: Global,
        program: Program,
        fault: AsmFault,
    ) -> Result<CommandOutcome, AllocError>
        ensures real { OnOk result (fault.kind ≢ asm_fault.OutOfMemory) }
        ensures told { IfOk result (λ o. o ≡ refused_with (unassembled_line (assembling.word_of fault.kind) fault.line)) }
    {
        match code_line(alloc, fault) {
            Ok(line) => {
                Ok(CommandOutcome::caused(line, CommandRefusal::Unassembled(program, fault)))
            }
            Err(AllocError) => Err(AllocError),
        }
    }

    /// The line of a program that the verdict refuses for a site, with status 1; none where memory was refused.
    pub(crate) fn unverified(
        alloc: Global,
        program: Program,
        refused: Refused,
    ) -> Result<CommandOutcome, AllocError>
        ensures { IfOk result (λ o. (refused.kind ≢ refusal.OutOfMemory) × (o ≡ refused_with (unverified_line (verdict_word.word_of refused.kind) (verdict_word.number_of refused.at)))) }
    {
        match verdict_line(alloc, &refused) {
            Ok(line) => {
                Ok(CommandOutcome::caused(line, CommandRefusal::Unverified(program, refused, None)))
            }
            Err(AllocError) => Err(AllocError),
        }
    }

    /// The line `link: KIND`, with status 3.
    pub(crate) fn unlinked(alloc: Global, fault: LinkFault) -> Result<CommandOutcome, AllocError>
        ensures { IfOk result (λ o. o ≡ record { lines = link_line (link_fault_word fault); status = FAILED_LINK }) }
    {
        let line = link_failed(alloc, fault.word())?;
        Ok(CommandOutcome {
            lines: line.into_bytes(),
            status: FAILED_LINK,
            cause: None,
        })
    }

    /// Writes the lines and gives the status; a failed write gives status 1.
    pub fn tell<W: Write>(&self, out: &mut W) -> u8
        ensures { IsTold (W.contents out.old) (W.contents out.new) self.now result }
    {
        write_lines(out, self.lines.as_slice(), self.status)
    }
}

fn for_site(cause: Option<CommandRefusal>, site: Site) -> Option<CommandRefusal> {
    match cause {
        Some(cause) => Some(cause.with_site(site)),
        None => None,
    }
}

/// The line of a site file's fault; none where memory was refused.
fn site_line(alloc: Global, fault: SiteFault) -> Result<String, AllocError>
    ensures real { OnOk result (fault ≢ site_fault.OutOfMemory) }
    ensures line { IfOk result (λ line. string_bytes line ≡ bad_site_line (of_site.fault_word fault)) }
{
    match fault {
        SiteFault::OutOfMemory => Err(AllocError),
        _ => no_site(alloc, fault.word()),
    }
}

/// The line of a plant file's fault; none where memory was refused.
fn plant_line(alloc: Global, fault: PlantFault) -> Result<String, AllocError>
    ensures real { OnOk result (fault ≢ plant_fault.OutOfMemory) }
    ensures line { IfOk result (λ line. string_bytes line ≡ bad_plant_line (of_plant.fault_word fault)) }
{
    match fault {
        PlantFault::OutOfMemory => Err(AllocError),
        _ => no_plant(alloc, fault.word()),
    }
}

/// The line of a program without code; none where memory was refused.
fn code_line(alloc: Global, fault: AsmFault) -> Result<String, AllocError>
    ensures real { OnOk result (fault.kind ≢ asm_fault.OutOfMemory) }
    ensures line { IfOk result (λ line. string_bytes line ≡ unassembled_line (assembling.word_of fault.kind) fault.line) }
{
    match fault.kind {
        AsmFaultKind::OutOfMemory => Err(AllocError),
        kind => unassembled(alloc, kind.word(), fault.line),
    }
}

/// The line of a program that the verdict refuses; none where memory was refused.
pub(crate) fn verdict_line(alloc: Global, refused: &Refused) -> Result<String, AllocError>
    ensures real { OnOk result (refused.now.kind ≢ refusal.OutOfMemory) }
    ensures line { IfOk result (λ line. string_bytes line ≡ unverified_line (verdict_word.word_of refused.now.kind) (verdict_word.number_of refused.now.at)) }
{
    match refused.kind {
        RefusalKind::OutOfMemory => Err(AllocError),
        kind => unverified(alloc, kind.word(), refused.at.number()),
    }
}

/// Writes lines and gives their status; a failed write gives status 1.
pub fn write_lines<W: Write>(out: &mut W, lines: &[u8], status: u8) -> u8
    ensures { IsTold (W.contents out.old) (W.contents out.new) (record { lines = lines.now; status = status }) result }
{
    match write_bytes(out, lines) {
        Ok(()) => status,
        Err(_) => 1,
    }
}

/// Writes that memory was refused, and gives the status.
pub fn tell_no_memory<W: Write>(out: &mut W) -> u8
    ensures { IsTold (W.contents out.old) (W.contents out.new) (refused_with no_memory_line) result }
{
    write_lines(out, b"refused: memory\n", 1)
}

/// Writes that the file at a path can't be used, and gives the status.
pub fn tell_unusable<W: Write>(alloc: Global, path: &str, out: &mut W) -> u8
    ensures { IsTold (W.contents out.old) (W.contents out.new) (refused_with (unusable_line path.now)) result
        ⊎ IsTold (W.contents out.old) (W.contents out.new) (refused_with no_memory_line) result }
{
    match unusable(alloc, path) {
        Ok(line) => write_lines(out, line.as_bytes(), 1),
        Err(_) => tell_no_memory(out),
    }
}

/// Writes that a link failed, and gives the status.
pub fn tell_unlinked<W: Write>(alloc: Global, fault: LinkFault, out: &mut W) -> u8
    ensures { IsUnlinked fault (W.contents out.old) (W.contents out.new) result }
{
    match CommandOutcome::unlinked(alloc, fault) {
        Ok(outcome) => outcome.tell(out),
        Err(AllocError) => tell_no_memory(out),
    }
}
