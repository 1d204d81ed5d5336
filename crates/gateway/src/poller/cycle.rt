//! One scan over a line.
ghost use Rattle.std.specs.Prelude.{◌≡◌, ◌≢◌, ◌≤◌, ◌<◌, ◌+◌, length, None, Some, IfOk, IfErr, IfSome, slice_index_or, count_by, [], ◌∷◌};
ghost use Rattle.std.specs.Option.{option_to_list};
ghost use Rattle.modbus_frame.specs.Message.{HasQuantity};
ghost use Rattle.register_map.specs.Layout.{block_of};
ghost use Rattle.site_model.specs.Wants.{length_of};
ghost use Rattle.gateway.specs.poller.Asking.{Turned};
ghost use Rattle.gateway.specs.poller.LinkRun.{Suits};
ghost use Rattle.gateway.specs.poller.Polling.{Asks};
ghost use Rattle.gateway.specs.poller.Cycle.{read_of, block_request, event_by, write_of, write_request, is_lost, is_refusal, is_taken_by, TakesBlock, StopsAt, WritesPoint, TakesBlocks, WritesUpTo, StopsTaking, StopsWriting, Scans, StopsScan};

use crate::event_core::{Answer, Event};
use crate::poller::line::Line;
use crate::poller::outcome::Outcome;
use crate::poller::write_order::WriteOrder;
use modbus_frame::{Link, LinkFault, Request};
use point_writer::{NoWrite, Write};
use register_map::{Block, Map};
use site_model::rules::MOST_TAGS;
use site_model::{Site, SiteDevice, Want, Words, WriteFunction};

/// A request to a unit.
#[derive(Debug, PartialEq, Eq, Drop)]
pub struct Call {
    /// The unit that is asked.
    pub unit: u8,
    /// What it is asked.
    pub request: Request,
}

/// What a scan did.
#[derive(Clone, Copy, Debug, PartialEq, Eq)]
pub struct Report {
    /// How many instructions the program took.
    pub steps: u32,
    /// How many writes went out.
    pub writes: usize,
    /// How many of them were not acknowledged.
    pub refused: usize,
    /// How many wanted blocks were lost.
    pub lost: usize,
}

/// What a scan over a line drives: it takes events, and says what is to be written after the last scan.
pub(crate) trait ScanCore {
    ghost use Rattle.std.specs.Prelude.{◌≡◌, ◌≤◌, ◌<◌, ℕ, List, Option, Result, length, IfOk};
    ghost use Rattle.register_map.specs.Layout.{Layout};
    ghost use Rattle.site_model.specs.declared.site.Site.{Site};
    ghost use Rattle.point_writer.specs.declared.write.Write.{Write};
    ghost use Rattle.point_writer.specs.declared.write.NoWrite.{NoWrite};
    ghost use Rattle.gateway.specs.declared.event_core.event.Event.{Event};
    ghost use Rattle.gateway.specs.declared.event_core.event.Answer.{Answer};

    ghost site_of: { Self → Site };

    ghost maps_of: { Self → List (Option Layout) };

    ghost step_of: { Self → Event → Answer → Self → Type 0 };

    ghost plan_of: { Self → ℕ → Result Write NoWrite → Type 0 };

    ghost steps_of: { Self → ℕ };

    fn site(&self) -> &Site
        ensures { result.now ≡ site_of self.now };

    fn maps(&self) -> &[Option<Map>]
        ensures { result.now ≡ maps_of self.now };

    fn step(&mut self, event: Event) -> Answer
        ensures stepped { step_of self.old event result self.new }
        ensures site { site_of self.new ≡ site_of self.old }
        ensures maps { maps_of self.new ≡ maps_of self.old };

    fn write(&self, i: usize) -> Result<Write, NoWrite>
        requires { i < length (site_of self.now).outs }
        ensures planned { plan_of self.now i result }
        ensures sized { IfOk result (λ w. (1 ≤ length w.words) × (length w.words ≤ 123)) };

    fn steps(&self) -> u32
        ensures { result ≡ steps_of self.now };
}

/// Asks for the wanted blocks, runs the program once, and writes what it set, in the order that is left in `order`.
pub(crate) fn scan<C: ScanCore, L: Link>(
    core: &mut C,
    line: &mut Line<L>,
    order: &mut WriteOrder,
) -> Result<Report, LinkFault>
    requires { line.old.polling.fault ≡ None }
    ensures scanned { IfOk result (λ report. Scans C.step_of C.plan_of C.steps_of (C.site_of core.old) (C.maps_of core.old)
        line.old.polling core.old line.new.polling core.new report) }
    ensures stopped { IfErr result (λ fault. StopsScan C.step_of C.plan_of (C.site_of core.old) (C.maps_of core.old)
        line.old.polling core.old fault line.new.polling core.new) }
    ensures turned { Turned line.old line.new }
{
    let lost = match take_blocks(core, line) {
        Ok(lost) => lost,
        Err(fault) => return Err(fault),
    };
    core.step(Event::Scan);
    match write_points(core, line, order) {
        Ok((writes, refused)) => Ok(Report {
            steps: core.steps(),
            writes,
            refused,
            lost,
        }),
        Err(fault) => Err(fault),
    }
}

// Gives the core what comes of each wanted block, and counts the lost ones.
fn take_blocks<C: ScanCore, L: Link>(core: &mut C, line: &mut Line<L>) -> Result<usize, LinkFault>
    requires { line.old.polling.fault ≡ None }
    ensures taken { IfOk result (λ lost. TakesBlocks C.step_of (C.site_of core.old) (C.maps_of core.old) (C.site_of core.old).wants
        line.old.polling core.old line.new.polling core.new lost) }
    ensures stopped { IfErr result (λ fault. StopsTaking C.step_of (C.site_of core.old) (C.maps_of core.old)
        line.old.polling core.old fault line.new.polling core.new) }
    ensures site { C.site_of core.new ≡ C.site_of core.old }
    ensures maps { C.maps_of core.new ≡ C.maps_of core.old }
    ensures turned { Turned line.old line.new }
{
    let mut lost = 0;
    for i in 0..core.site().wants().len() {
        let want = want_at(core.site(), i);
        match line.take_block(core.site(), core.maps(), want) {
            Ok(event) => {
                lost += lost_by(&event);
                core.step(event);
            }
            Err(fault) => return Err(fault),
        }
    }
    Ok(lost)
}

fn want_at(site: &Site, i: usize) -> Want
    requires { i < length site.now.wants }
    ensures { result ≡ slice_index_or site.now.wants i result }
{
    site.wants()[i]
}

// Writes what the last scan set, and counts the writes, and those that were not acknowledged.
fn write_points<C: ScanCore, L: Link>(
    core: &C,
    line: &mut Line<L>,
    order: &mut WriteOrder,
) -> Result<(usize, usize), LinkFault>
    requires { line.old.polling.fault ≡ None }
    ensures written { IfOk result (λ counts. WritesUpTo C.plan_of (C.site_of core.now) [] core.now
        line.old.polling line.new.polling counts.0 counts.1) }
    ensures stopped { IfErr result (λ fault. StopsWriting C.plan_of (C.site_of core.now) core.now
        line.old.polling fault line.new.polling) }
    ensures turned { Turned line.old line.new }
{
    let mut writes = 0;
    let mut refused = 0;
    order.begin(core.site());
    for k in 0..MOST_TAGS {
        let Some(output) = order.get(k) else {
            break;
        };
        match line.write_point(core.site().devices(), &core.write(output)) {
            Ok(outcome) => {
                let (sent, unacknowledged) = counts_by(&outcome);
                writes += sent;
                refused += unacknowledged;
                order.follow(core.site(), output, is_taken(&outcome));
            }
            Err(fault) => return Err(fault),
        }
    }
    Ok((writes, refused))
}

impl<L: Link> Line<L> {
    // What comes of a wanted block.
    fn take_block(
        &mut self,
        site: &Site,
        maps: &[Option<Map>],
        want: Want,
    ) -> Result<Event, LinkFault>
        requires { self.old.polling.fault ≡ None }
        ensures taken { IfOk result (λ event. TakesBlock want (read_of site.now maps.now want) self.old.polling event self.new.polling) }
        ensures stopped { IfErr result (λ fault. StopsAt (read_of site.now maps.now want) self.old.polling fault self.new.polling) }
        ensures turned { Turned self.old self.new }
    {
        match read_of(site, maps, want) {
            Some(call) => match self.call(&call) {
                Ok(outcome) => Ok(event_by(want, outcome)),
                Err(fault) => Err(fault),
            },
            None => Ok(Event::Lost(want)),
        }
    }

    // What came of the write of a point, where there is one.
    fn write_point(
        &mut self,
        devices: &[SiteDevice],
        plan: &Result<Write, NoWrite>,
    ) -> Result<Option<Outcome>, LinkFault>
        requires works { self.old.polling.fault ≡ None }
        requires sized { IfOk plan.now (λ w. (1 ≤ length w.words) × (length w.words ≤ 123)) }
        ensures written { IfOk result (λ outcome. WritesPoint (write_of devices.now plan.now) self.old.polling outcome self.new.polling) }
        ensures stopped { IfErr result (λ fault. StopsAt (write_of devices.now plan.now) self.old.polling fault self.new.polling) }
        ensures turned { Turned self.old self.new }
    {
        match write_of(devices, plan) {
            Some(call) => match self.call(&call) {
                Ok(outcome) => Ok(Some(outcome)),
                Err(fault) => Err(fault),
            },
            None => Ok(None),
        }
    }

    fn call(&mut self, call: &Call) -> Result<Outcome, LinkFault>
        requires works { self.old.polling.fault ≡ None }
        requires quantity { HasQuantity call.now.request }
        ensures done { Asks self.old.polling call.now.unit call.now.request result self.new.polling }
        ensures suits { IfOk result (Suits call.now.request) }
        ensures turned { Turned self.old self.new }
    {
        self.turn_to(call.unit);
        self.ask(&call.request)
    }
}

/// The request for a wanted block, where the device has the model.
pub fn read_of(site: &Site, maps: &[Option<Map>], want: Want) -> Option<Call>
    ensures read { result ≡ read_of site.now maps.now want }
    ensures quantity { IfSome result (λ call. HasQuantity call.request) }
{
    let device = site.devices().get(want.device)?;
    let map = maps.get(want.device)?.as_ref()?;
    let block = map.block(want.model)?;
    let length = site.length(want.model)?;
    Some(Call {
        unit: device.unit,
        request: block_request(block, length),
    })
}

// A definition has at most 123 registers.
fn block_request(block: Block, length: u16) -> Request
    ensures request { result ≡ block_request block length }
    ensures quantity { HasQuantity result }
{
    Request::Read {
        addr: block.addr,
        qty: block.length.min(length).min(123) + 2,
    }
}

/// What a request for a wanted block tells: its words, or that it is lost.
pub fn event_by(want: Want, outcome: Outcome) -> Event
    ensures { result ≡ event_by want outcome }
{
    match outcome {
        Outcome::Words(words) => Event::Block(want, words),
        _ => Event::Lost(want),
    }
}

/// The request that writes a point, where it is to be written.
pub fn write_of(devices: &[SiteDevice], plan: &Result<Write, NoWrite>) -> Option<Call>
    requires { IfOk plan.now (λ w. (1 ≤ length w.words) × (length w.words ≤ 123)) }
    ensures write { result ≡ write_of devices.now plan.now }
    ensures quantity { IfSome result (λ call. HasQuantity call.request) }
{
    let write = plan.as_ref().ok()?;
    let device = devices.get(write.device)?;
    Some(Call {
        unit: device.unit,
        request: write_request(device.write, write.addr, write.words.as_slice()),
    })
}

fn write_request(function: WriteFunction, addr: u16, words: &[u16]) -> Request
    requires some { 1 ≤ length words.now }
    requires few { length words.now ≤ 123 }
    ensures request { result ≡ write_request function addr words.now }
    ensures quantity { HasQuantity result }
{
    match (function, words) {
        (WriteFunction::Single, [value]) => Request::WriteOne {
            addr,
            value: *value,
        },
        _ => Request::WriteMany {
            addr,
            words: Words::from_few(words),
        },
    }
}

// 1 for a lost block.
fn lost_by(event: &Event) -> usize
    ensures lost { result ≡ count_by is_lost (event.now ∷ []) }
    ensures most { result ≤ 1 }
{
    match event {
        Event::Lost(_) => 1,
        _ => 0,
    }
}

// Whether a write was acknowledged.
fn is_taken(outcome: &Option<Outcome>) -> bool
    ensures { result ≡ is_taken_by outcome.now }
{
    match outcome {
        Some(Outcome::Wrote) => true,
        _ => false,
    }
}

// How many writes that is, and how many of them weren't acknowledged.
fn counts_by(outcome: &Option<Outcome>) -> (usize, usize)
    ensures sent { result.0 ≡ length (option_to_list outcome.now) }
    ensures refused { result.1 ≡ count_by is_refusal (option_to_list outcome.now) }
    ensures most { (result.0 ≤ 1) × (result.1 ≤ 1) }
{
    match outcome {
        None => (0, 0),
        Some(Outcome::Wrote) => (1, 0),
        Some(_) => (1, 1),
    }
}
