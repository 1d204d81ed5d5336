//! The core of a gateway: one state, one step for each event.
ghost use Rattle.std.specs.Prelude.{◌≡◌, length};
ghost use Rattle.gateway.specs.event_core.SiteRun.{told, with_block};

mod answering;
mod event;
mod fault;
mod memory;
mod opening;
mod request;
mod restoring;
mod scan;
mod setting;
mod waiting;

use crate::served::{OwnPoint, serve};
pub use answering::serve_client;
pub use event::{Answer, Event};
pub use fault::CoreFault;
pub(crate) use memory::Memory;
use modbus_frame::{Exception, Pdu, Request, Response, exception_pdu, parse_request, response_pdu};
use opening::{inputs_for, opening_for};
use point_types::{Items, Reading};
use point_writer::plan::plan;
use point_writer::{NoWrite, Write, factor};
use register_map::Map;
use request::read;
use restoring::request_to_set;
use scan::scan;
use scan_vm::Machine;
pub use setting::setting_of;
use setting::write;
use site_model::wants::place_of_want;
use site_model::{Site, Want, Words};
use std::alloc::Global;
use std::marker::Model;
pub use waiting::has_lapsed;
use waiting::{elapsed_after, grow_older, lapse, some_lapses};

/// The most values that a program may defer where it runs as a command or a service.
pub const DEPTH: usize = 32;

/// The most milliseconds that are told apart between two scans: an hour.
pub const MOST_ELAPSED: u32 = 3_600_000;

/// The core of a gateway: its site, the program that runs, what is known of the devices, and what clients set. It goes
/// from event to event, takes memory only when it is made, and never waits.
pub struct Core<const DEPTH: usize> {
    pub(crate) site: Site,
    pub(crate) maps: Vec<Option<Map>>,
    pub(crate) machine: Machine<DEPTH>,
    pub(crate) points: Items<OwnPoint>,
    pub(crate) known: Memory,
    /// The served image, from the base on.
    pub(crate) image: Vec<u16>,
    /// Room for the settings that a request is about to make.
    pub(crate) room: Vec<Option<i64>>,
    /// Room for the readings of the program's tags.
    pub(crate) inputs: Vec<Reading>,
}

/// A call for whoever drops one: the proofs of the functions that own one needn't take it apart.
impl<const DEPTH: usize> Drop for Core<DEPTH> {
    fn drop(self) {
        let Core {
            site: _,
            maps: _,
            machine: _,
            points: _,
            known: _,
            image: _,
            room: _,
            inputs: _,
        } = self;
    }
}

impl<const DEPTH: usize> Model for Core<DEPTH> {
    ghost use Rattle.gateway.specs.event_core.Core.{Gateway, IsCore, standing_of};

    ghost Value = { Gateway };

    ghost view = { λ c. record { site = c.site; maps = c.maps.items; machine = c.machine; standing = standing_of c.machine c.known } };

    ghost invariant = { λ c. IsCore c.site c.maps.items c.machine c.points c.known c.image.items c.room.items c.inputs.items };
}

impl<const DEPTH: usize> Core<DEPTH> {
    ghost use Rattle.std.specs.Prelude.{◌≡◌, ◌<◌, ◌≤◌, length, set, ℕ, None, IfOk, IfErr, IfSome, OnOk};
    ghost use Rattle.verifier.specs.Verified.{HasLinks};
    ghost use Rattle.gateway.specs.declared.event_core.fault.CoreFault.TheVariants.{Foreign, OutOfMemory};
    ghost use Rattle.modbus_frame.specs.Message.{request_of, IsAnswerTo, IsRequest};
    ghost use Rattle.point_writer.specs.Going.{IsPlanFor};
    ghost use Rattle.point_writer.specs.SetPoint.{IsFactorFor, WritesASetPoint};
    ghost use Rattle.site_model.specs.Readings.{AreSettings};
    ghost use Rattle.gateway.specs.event_core.Core.{IsSame, RunsOn, StepsOn, adopting, gateway_of, numbers_of};
    ghost use Rattle.gateway.specs.event_core.Driving.{Drives, ScansOnce};
    ghost use Rattle.gateway.specs.event_core.Restoring.{NothingSets, SetsAlone};
    ghost use Rattle.gateway.specs.event_core.SiteRun.{Does, IsScan, Replies, SaysWrote, WritesAt, after_block, after_time};

    /// A core on which nothing happened yet; all memory that its events need is taken here. `maps` has an entry for each
    /// of the site's devices. Foreign: the program was accepted for tags that the site doesn't have so; that comes before
    /// memory is asked for.
    pub fn new(
        alloc: Global,
        site: Site,
        machine: Machine<DEPTH>,
        maps: Vec<Option<Map>>,
    ) -> Result<Core<DEPTH>, CoreFault>
        requires { length maps.items ≡ length site.devices }
        ensures opened { IfOk result (λ core. core ≡ gateway_of site maps.items machine.entry) }
        ensures matched { OnOk result (HasLinks site.tags machine.entry.accepted.links) }
        ensures foreign { IfErr result (λ e. e ≡ Foreign → HasLinks site.tags machine.entry.accepted.links → ⊥) }
        ensures memory { IfErr result (λ e. e ≡ OutOfMemory → HasLinks site.tags machine.entry.accepted.links) }
    {
        match opening_for(alloc, &site, machine.verified()) {
            Ok(opening) => Ok(Core {
                site,
                maps,
                machine,
                points: opening.points,
                known: opening.known,
                image: opening.image,
                room: opening.room,
                inputs: opening.inputs,
            }),
            Err(fault) => Err(fault),
        }
    }

    /// What happens on one event: the words of a wanted block are kept, or forgotten; time goes by, and what clients set
    /// lapses; the program runs once; a client's request is answered. A block that isn't wanted is ignored, and one without words, or whose first word isn't the
    /// model's ID, is as a lost one.
    pub fn step(&mut self, event: Event) -> Answer
        ensures run { StepsOn self.old event result self.new }
        ensures machine { Drives DEPTH self.old event self.new }
        ensures same { IsSame self.old self.new }
    {
        self.advance(&event)
    }

    /// What happens on these events, one after another; each answer is put into its event's place.
    pub fn replay(&mut self, events: &[Event], answers: &mut [Answer])
        requires { length answers.old ≡ length events.now }
        ensures run { RunsOn self.old events.now answers.new self.new }
        ensures same { IsSame self.old self.new }
    {
        for (i, event) in events.iter().enumerate() {
            answers[i] = self.advance(event);
        }
    }

    fn advance(&mut self, event: &Event) -> Answer
        ensures run { StepsOn self.old event.now result self.new }
        ensures machine { Drives DEPTH self.old event.now self.new }
        ensures same { IsSame self.old self.new }
    {
        match event {
            Event::Block(want, words) => {
                self.note(*want, told(want.model, words));
                Answer::None
            }
            Event::Lost(want) => {
                self.note(*want, None);
                Answer::None
            }
            Event::Time(elapsed) => {
                self.wait(*elapsed);
                Answer::None
            }
            Event::Scan => {
                self.scan();
                Answer::Writes(self.site.outs().len())
            }
            Event::Client(pdu) => Answer::Reply(self.reply(pdu)),
        }
    }

    /// What is written to the i-th of the site's `out` tags after the last scan, by the blocks that were known at it
    /// (SunSpec Device Information Model Specification, points and scale factors). NotSet before any scan.
    pub fn write(&self, i: usize) -> Result<Write, NoWrite>
        requires { i < length self.now.site.outs }
        ensures plan { IsPlanFor self.now.site.tags self.now.site.outs self.now.site.wants self.now.maps self.now.standing.last.blocks self.now.standing.last.outputs i result }
        ensures set_point { WritesASetPoint self.now.site.tags self.now.site.outs self.now.site.wants self.now.maps self.now.standing.last.blocks self.now.standing.last.outputs i result }
        ensures ranged { AreSettings self.now.site.tags self.now.standing.last.outputs }
        ensures sized { IfOk result (λ w. (1 ≤ length w.words) × (length w.words ≤ 123)) }
    {
        plan(
            &self.site,
            &self.known.outputs,
            &self.known.scanned,
            &self.maps,
            i,
        )
    }

    /// The factor that the device gave, at the last scan, for the point of the i-th of the site's `out` tags: the one by which
    /// [`write`](Core::write) judges. None where the point has no place, or the device gave none.
    pub fn factor(&self, i: usize) -> Option<i16>
        requires { i < length self.now.site.outs }
        ensures { IsFactorFor self.now.site.tags self.now.site.outs self.now.site.wants self.now.maps self.now.standing.last.blocks i result }
    {
        factor(&self.site, &self.known.scanned, &self.maps, i)
    }

    /// The site that was handed in.
    pub fn site(&self) -> &Site
        ensures { result.now ≡ self.now.site }
    {
        &self.site
    }

    /// The maps of the site's devices, as they stand now.
    pub fn maps(&self) -> &[Option<Map>]
        ensures { result.now ≡ self.now.maps }
    {
        &self.maps
    }

    /// From now on this is the map of a device, or it has none; nothing else changes.
    pub fn learn(&mut self, device: usize, map: Option<Map>)
        requires { device < length self.old.site.devices }
        ensures { self.new ≡ record self.old { maps = set self.old.maps device map } }
    {
        self.maps[device] = map;
    }

    /// What each of the site's tags was in the last scan: its number, or why it was absent; NoBlock before any scan.
    pub fn readings(&self) -> &[Reading]
        ensures { result.now ≡ self.now.standing.last.readings }
    {
        self.known.readings.as_slice()
    }

    /// The words of the site's wanted blocks by which the last scan read its tags; None where none were known.
    pub fn scanned(&self) -> &[Option<Words>]
        ensures blocks { result.now ≡ self.now.standing.last.blocks }
        ensures sized { length result.now ≡ length self.now.site.wants }
    {
        self.known.scanned.as_slice()
    }

    /// What the program stored in the last scan, for each of the site's tags; None where it stored nothing.
    pub fn outputs(&self) -> &[Option<i64>]
        ensures { result.now ≡ self.now.standing.last.outputs }
    {
        self.known.outputs.as_slice()
    }

    /// What clients set, for each of the site's tags; None where nothing was set.
    pub fn settings(&self) -> &[Option<i64>]
        ensures { result.now ≡ self.now.standing.sets }
    {
        self.known.sets.as_slice()
    }

    /// The milliseconds since a client set each of the site's tags last, a day at most; None where none did.
    pub fn ages(&self) -> &[Option<u32>]
        ensures { result.now ≡ self.now.standing.ages }
    {
        self.known.ages.as_slice()
    }

    /// From the next scan on this machine's program runs, with its variables as they stand. What is known and set stays, as
    /// does what the last scan read and stored. Foreign: the program was accepted for tags that the site doesn't have so; that
    /// comes before memory is asked for. Where it fails nothing changes.
    pub fn adopt(&mut self, alloc: Global, machine: Machine<DEPTH>) -> Result<(), CoreFault>
        ensures adopted { OnOk result (self.new ≡ adopting machine.entry self.old) }
        ensures kept { IfErr result (λ e. self.new ≡ self.old) }
        ensures matched { OnOk result (HasLinks self.old.site.tags machine.entry.accepted.links) }
        ensures foreign { IfErr result (λ e. e ≡ Foreign → HasLinks self.old.site.tags machine.entry.accepted.links → ⊥) }
        ensures memory { IfErr result (λ e. e ≡ OutOfMemory → HasLinks self.old.site.tags machine.entry.accepted.links) }
    {
        match inputs_for(alloc, &self.site, machine.verified()) {
            Ok(inputs) => {
                self.inputs = inputs;
                self.machine = machine;
                Ok(())
            }
            Err(fault) => Err(fault),
        }
    }

    /// The request by which a client sets a tag alone to this number, as one that was set before a restart. None where no
    /// client can: the site has no such `set` tag, or no words of its point read as the number, exactly and in its range.
    pub fn request_to_set(&self, tag: usize, number: i64) -> Option<Request>
        ensures request { IfSome result IsRequest }
        ensures sets { IfSome result (SetsAlone self.now.site tag number) }
        ensures none { result ≡ None → NothingSets self.now.site tag number }
    {
        request_to_set(&self.site, self.points.as_slice(), tag, number)
    }

    /// How many instructions the last scan took; 0 before any.
    pub fn steps(&self) -> u32
        ensures { result ≡ self.now.standing.last.steps }
    {
        self.known.steps
    }

    /// The machine that was handed in, as it stands now.
    pub fn machine(&self) -> &Machine<DEPTH>
        ensures machine { result.now ≡ self.now.machine }
        ensures variables { self.now.standing.variables ≡ self.now.machine.variables }
    {
        &self.machine
    }

    /// What is known of a block from now on, where it is wanted.
    fn note(&mut self, want: Want, entry: Option<Words>)
        ensures after { self.new.standing ≡ after_block self.old.site want entry self.old.standing }
        ensures machine { self.new.machine ≡ self.old.machine }
        ensures same { IsSame self.old self.new }
    {
        note(self.site.wants(), &mut self.known.blocks, want, entry);
    }

    /// So many milliseconds went by.
    fn wait(&mut self, elapsed: u32)
        ensures after { self.new.standing ≡ after_time self.old.site elapsed self.old.standing }
        ensures machine { self.new.machine ≡ self.old.machine }
        ensures same { IsSame self.old self.new }
    {
        self.known.elapsed = elapsed_after(self.known.elapsed, elapsed);
        grow_older(&mut self.known.ages, elapsed);
        if some_lapses(self.site.tags(), &self.known.ages, &self.known.sets) {
            lapse(self.site.tags(), &self.known.ages, &mut self.known.sets);
            serve(
                self.points.as_slice(),
                &self.site,
                &self.known,
                &mut self.image,
            );
        }
    }

    /// The program runs once.
    fn scan(&mut self)
        ensures scan { IsScan self.old.site self.old.machine.accepted.image (numbers_of self.old.machine.accepted) self.old.machine.accepted.budget self.old.standing self.new.standing }
        ensures machine { ScansOnce DEPTH self.old self.new }
        ensures same { IsSame self.old self.new }
    {
        scan(
            &self.site,
            &mut self.machine,
            &mut self.known,
            &mut self.inputs,
        );
        serve(
            self.points.as_slice(),
            &self.site,
            &self.known,
            &mut self.image,
        );
    }

    /// Answers a client's PDU, and does what it asks for.
    pub(crate) fn reply(&mut self, pdu: &Pdu) -> Pdu
        ensures reply { Replies self.old.site self.old.standing pdu.now (request_of pdu.now) result self.new.standing }
        ensures machine { self.new.machine ≡ self.old.machine }
        ensures same { IsSame self.old self.new }
    {
        match parse_request(pdu) {
            Ok(request) => {
                let answer = self.answer(&request);
                response_pdu(&request, &answer)
            }
            Err(exception) => exception_pdu(pdu, exception),
        }
    }

    fn answer(&mut self, request: &Request) -> Result<Response, Exception>
        requires { IsRequest request.now }
        ensures answer { Does self.old.site self.old.standing request.now result self.new.standing }
        ensures fits { IsAnswerTo request.now result }
        ensures machine { self.new.machine ≡ self.old.machine }
        ensures same { IsSame self.old self.new }
    {
        match request {
            Request::Read { addr, qty } => read(&self.image, self.site.base(), *addr, *qty),
            Request::WriteOne { addr, value } => self.set(*addr, &[*value]),
            Request::WriteMany { addr, words } => self.set(*addr, words.as_slice()),
        }
    }

    /// Sets the tags of whole points, all of them or none.
    fn set(&mut self, addr: u16, words: &[u16]) -> Result<Response, Exception>
        ensures answer { WritesAt self.old.site self.old.standing addr words.now result self.new.standing }
        ensures wrote { SaysWrote result }
        ensures machine { self.new.machine ≡ self.old.machine }
        ensures same { IsSame self.old self.new }
    {
        let answer = write(
            &self.site,
            self.points.as_slice(),
            addr,
            words,
            &mut self.known.sets,
            &mut self.known.ages,
            &mut self.room,
        );
        match answer {
            Ok(response) => {
                serve(
                    self.points.as_slice(),
                    &self.site,
                    &self.known,
                    &mut self.image,
                );
                Ok(response)
            }
            Err(exception) => Err(exception),
        }
    }
}

/// The words of a block, which begin with its model's ID.
fn told(model: u16, words: &Words) -> Option<Words>
    ensures { result ≡ told model words.now }
{
    match words.as_slice() {
        [first, ..] if *first == model => Words::from_slice(words.as_slice()),
        _ => None,
    }
}

/// Replaces what is known of a block, where it is wanted.
fn note(wants: &[Want], blocks: &mut [Option<Words>], want: Want, entry: Option<Words>)
    requires { length blocks.old ≡ length wants.now }
    ensures after { blocks.new ≡ with_block wants.now want entry blocks.old }
    ensures len { length blocks.new ≡ length blocks.old }
{
    if let Some(i) = place_of_want(wants, want) {
        blocks[i] = entry;
    }
}
