//! How a service stands, for whoever looks after it.
ghost use Rattle.std.specs.Prelude.{◌≡◌, ◌≤◌, ◌<◌, IfNone, IfSome, Some, length, slice_get};
ghost use Rattle.service.specs.declared.polled_device.PolledDevice.{PolledDevice as Own};
ghost use Rattle.site_model.specs.Readings.{known_at};
ghost use Rattle.service.specs.Having.{Has};
ghost use Rattle.service.specs.Identity.{words_of};
ghost use Rattle.service.specs.Noting.{TakesOldest};
ghost use Rattle.service.specs.Rounds.{is_ready};
ghost use Rattle.service.specs.Standing.{IsStatus, is_reached, refusals_at};
ghost use Rattle.service.specs.Telling.{told_at};
ghost use Rattle.service.specs.Turning.{difference_at};

use crate::counts::Counts;
use crate::held_writes::HeldWrite;
use crate::notice::{Loss, Notice};
use crate::output::OutputState;
use crate::read_back::Difference;
use crate::refusals::ReadRefusal;
use crate::replies::Replies;
use crate::service_state::Service;

/// How a device stands.
#[derive(Clone, Copy, Debug, PartialEq, Eq)]
pub struct DeviceStatus {
    /// Whether its connection is up.
    pub is_up: bool,
    /// Whether it has a map; [`Service::core`] has the map itself.
    pub is_mapped: bool,
    /// Whether another device answers in its place: one that doesn't say what it has to.
    pub is_another: bool,
    /// Whether it is lost now.
    pub is_lost: bool,
    /// Why it was lost last.
    pub last_loss: Option<Loss>,
    /// How long its replies take.
    pub replies: Replies,
    /// Its outputs are planned each so many scans; 0 where they weren't planned twice yet.
    pub each: u64,
    /// So many scans ago its least recent block was told.
    pub age: u64,
    /// How often it was asked and lost.
    pub counts: Counts,
}

impl Service {
    /// What happened, the oldest first, each once.
    pub fn next_note(&mut self) -> Option<Notice>
        ensures oldest { TakesOldest self.old.side.notes.items.items result self.new.side.notes.items.items }
        ensures room { self.new.side.notes.items.cap ≡ self.old.side.notes.items.cap }
        ensures same { self.new ≡ record self.old { side = record self.old.side { notes = self.new.side.notes } } }
    {
        self.side.notes.next()
    }

    /// How a device stands, by its number; None where the site has no such device.
    pub fn device_status(&self, device: usize) -> Option<DeviceStatus>
        ensures stands { IfSome result (λ status. (own : Own) → slice_get self.now.side.devices.items device ≡ Some own → IsStatus self.now.cycle.core.value self.now.cycle.round.told self.now.lines device own status) }
        ensures none { IfNone result (length self.now.side.devices.items ≤ device) }
        ensures some { IfSome result (λ status. device < length self.now.side.devices.items) }
    {
        let found = self.side.devices.get(device)?;
        Some(DeviceStatus {
            is_up: self.is_reached(device),
            is_mapped: self.cycle.is_mapped(device),
            is_another: found.is_another,
            is_lost: found.is_lost,
            last_loss: found.last_loss,
            replies: found.replies(),
            each: found.each(),
            age: self.cycle.round().scans_since(device),
            counts: found.counts,
        })
    }

    /// What a device said last of itself, in a search for its map: the 64 registers of its common model from the maker on (Mn, Md, Opt,
    /// Vr, SN); None before, where it has to say nothing, and where it has no such model or refuses to read it.
    pub fn said(&self, device: usize) -> Option<&[u16]>
        ensures some { IfSome result (λ words. words_of self.now.held.identities device ≡ Some words.now) }
        ensures none { IfNone result (words_of self.now.held.identities device ≡ None) }
    {
        self.held.said(device)
    }

    /// What a device refused to be read, in the order in which that was told; nothing where the site has no such device.
    pub fn refusals(&self, device: usize) -> &[ReadRefusal]
        ensures { result.now ≡ refusals_at self.now.side device }
    {
        match self.side.devices.get(device) {
            Some(found) => found.refusals(),
            None => &[],
        }
    }

    /// Whether each wanted block of a device was told since its outputs were planned last, or it has none.
    pub fn is_read(&self, device: usize) -> bool
        ensures { result ≡ is_ready self.now.cycle.round.told device }
    {
        self.cycle.round().is_ready(device)
    }

    /// Whether the connection over which a device is reached is up.
    fn is_reached(&self, device: usize) -> bool
        ensures { result ≡ is_reached self.now.lines device }
    {
        match self.lines.station(device) {
            Some(station) => self.lines.is_up(station.link),
            None => false,
        }
    }

    /// What became of an output last, by its number among the site's outputs; None before its first scan.
    pub fn output_state(&self, output: usize) -> Option<OutputState>
        ensures { result ≡ told_at self.now.side.outputs.items output }
    {
        self.side.outputs.get(output)?.told()
    }

    /// What the device of an output took of it last, where it is known to have that still: not while another write of it is under way or
    /// wasn't taken, and not once its connection ended, or it showed something else.
    pub fn taken(&self, output: usize) -> Option<&HeldWrite>
        ensures some { IfSome result (λ write. Has self.now.held output write.now) }
        ensures none { IfNone result (known_at self.now.held.writes.items output ≡ None) }
    {
        self.held.taken(output)
    }

    /// What the device of an output shows of it otherwise than it took it, as it was shown last; None where that isn't so.
    pub fn difference(&self, output: usize) -> Option<Difference>
        ensures { result ≡ difference_at self.now.side.outputs.items output }
    {
        self.side.outputs.get(output)?.differs()
    }
}
