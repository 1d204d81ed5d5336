//! The devices' side of a service, apart from its core and its connections: devices, outputs, and the times of scans.
ghost use Rattle.std.specs.Prelude.{◌≡◌, ◌≤◌, ◌<◌, ℕ, Bool, Option, Some, true, length, max, slice_get, nat_le, ◌==◌, option_map, if◌then◌else◌};
ghost use Rattle.service.specs.declared.polled_device.PolledDevice.{PolledDevice as DeviceValue};
ghost use Rattle.service_parts.specs.Backing.{after};
ghost use Rattle.service.specs.Counting.{CountsLoss, KeepsLosses, asked_once_more, counts_at};
ghost use Rattle.service.specs.Noting.{Finds, HearsFrom, Loses, Refuses};
ghost use Rattle.service.specs.Telling.{told_at};
ghost use Rattle.service.specs.declared.output.OutputState.{OutputState as StateValue};
ghost use Rattle.service.specs.declared.notice.Unwritten.TheVariants.{Unanswered};
ghost use Rattle.service.specs.declared.output.OutputState.TheVariants.{Unwritten as unwritten_for};
ghost use Rattle.service.specs.Losing.{IsLost};
ghost use Rattle.service.specs.Told.{Allowed, BecomesBy, Goes, IsReportOf, IsSo, IsThis, IsUnanswered, LosesBy, PlansBy, RunsBy, allows, awaited_then, awaits_at, compares_at, differs_then, lost_then, note_by, note_of, state_then, IsShown, ShowsBy};
ghost use Rattle.service.specs.Turning.{showing};
ghost use Rattle.service.specs.Having.{IsOfPlan, IsToWait};
ghost use Rattle.service.specs.Timing.{CountsScan, KeepsCounts, KeepsTime, PlansScan, not_over, planned_from, scan_after};

use crate::last_scan::LastScan;
use crate::link_pace::LinkPace;
use crate::notice::{Loss, Notice, Unwritten};
use crate::notices::Notices;
use crate::output::{Output, OutputState};
use crate::polled_device::PolledDevice;
use crate::read_back::Shown;
use crate::refusals::ReadRefusal;
use crate::round::Round;
use gateway::Report;
use point_writer::{NoWrite, Write};
use service_parts::{Aim, Limits};

/// How devices and outputs stand, what is told of them, and when something is to be done about all that.
#[derive(Drop)]
pub struct DeviceSide {
    pub(crate) devices: Vec<PolledDevice>,
    pub(crate) outputs: Vec<Output>,
    pub(crate) links: Vec<LinkPace>,
    pub(crate) notes: Notices,
    pub(crate) limits: Limits,
    pub(crate) now: u64,
    /// When the program runs next.
    pub(crate) next_scan: u64,
    pub(crate) scans: u64,
    /// What the last of them came to.
    pub(crate) last_scan: LastScan,
    /// Whether what the last scan planned is still written.
    pub(crate) is_writing: bool,
    /// How many writes of the last scan went out, and something came of them.
    pub(crate) writes: usize,
    /// How many of these weren't done.
    pub(crate) refused: usize,
}

impl DeviceSide {
    /// Time goes up.
    #[tactic(auto, using(crate::proofs::ByNotes::same_goes))]
    pub(crate) fn turn_to(&mut self, now: u64)
        ensures now { self.new ≡ record self.old { now = max self.old.now now } }
        ensures stands { Goes self.old self.new }
    {
        self.now = self.now.max(now);
    }

    /// Until when a dial that begins now may take: as long as a device may take to answer.
    pub(crate) fn dial_until(&self) -> u64
        ensures { result ≡ after self.entry.now.now self.entry.now.limits.timeout }
    {
        self.now.saturating_add(self.limits.timeout)
    }

    /// When wanted blocks are read of all devices: half a period before the next scan.
    pub(crate) fn reading_time(&self) -> u64 {
        self.next_scan.saturating_sub(self.limits.period / 2)
    }

    /// By when a request ends that takes nothing of what the scans need: when all devices are read, or the next scan.
    pub(crate) fn spare_until(&self) -> u64 {
        let reads = self.reading_time();
        if self.now < reads {
            reads
        } else {
            self.next_scan
        }
    }
}

impl DeviceSide {
    /// A device is searched from now on.
    pub(crate) fn seek(&mut self, device: usize)
        ensures time { KeepsTime self.old self.new }
        ensures stands { Goes self.old self.new }
    {
        self.seek_at(device, self.now);
        self.begin_anew(device);
    }

    fn begin_anew(&mut self, device: usize)
        ensures time { KeepsTime self.old self.new }
        ensures stands { Goes self.old self.new }
    {
        if let Some(found) = self.devices.get_mut(device) {
            found.begin_anew();
        }
    }

    /// A device has other registers than its map said: its next map is told.
    pub(crate) fn tell_again(&mut self, device: usize)
        ensures time { KeepsTime self.old self.new }
        ensures stands { Goes self.old self.new }
    {
        if let Some(found) = self.devices.get_mut(device) {
            found.tell_again();
        }
    }

    fn seek_at(&mut self, device: usize, at: u64)
        ensures counts { counts_at self.new device ≡ counts_at self.old device }
        ensures time { KeepsTime self.old self.new }
        ensures stands { Goes self.old self.new }
    {
        if let Some(found) = self.devices.get_mut(device) {
            found.seek_from(at);
        }
    }

    /// Tells what is no loss of a device, and nothing of an output.
    #[tactic(auto, using(crate::proofs::ByNotes::other_goes))]
    fn tell(&mut self, note: Notice)
        requires allowed { (may : Allowed) → allows may note ≡ true }
        requires device { (device : ℕ) (was : Bool) → lost_then note device was ≡ was }
        requires output { (output : ℕ) (was : Option StateValue) → state_then note output was ≡ was }
        requires awaited { (output : ℕ) (was : Bool) → awaited_then note output was ≡ was }
        requires shown { (output : ℕ) (was : Bool) → differs_then note output was ≡ was }
        requires so { IsSo note self.old }
        ensures time { KeepsTime self.old self.new }
        ensures stands { Goes self.old self.new }
    {
        self.notes.add(note);
    }

    /// A device's map is found.
    pub(crate) fn find(&mut self, device: usize)
        ensures finds { (own : DeviceValue) → slice_get self.old.devices.items device ≡ Some own → Finds device own self.old self.new }
        ensures time { KeepsTime self.old self.new }
        ensures stands { Goes self.old self.new }
    {
        if let Some(found) = self.devices.get_mut(device) {
            if found.found() {
                self.notes.add(Notice::Found(device));
            }
        }
    }

    /// A search found no map: the next one begins later.
    pub(crate) fn find_none(&mut self, device: usize)
        ensures time { KeepsTime self.old self.new }
        ensures stands { Goes self.old self.new }
    {
        let again = self.now.saturating_add(self.limits.search_again);
        self.seek_at(device, again);
        self.tell(Notice::NoMap(device));
    }

    /// A search found another device: the next one begins later.
    pub(crate) fn find_another(&mut self, device: usize)
        ensures time { KeepsTime self.old self.new }
        ensures stands { Goes self.old self.new }
    {
        let again = self.now.saturating_add(self.limits.search_again);
        self.seek_at(device, again);
        if self.is_new_another(device) {
            self.tell(Notice::Another(device));
        }
    }

    /// Another device answers in place of this one; whether that is to be told.
    fn is_new_another(&mut self, device: usize) -> bool
        ensures time { KeepsTime self.old self.new }
        ensures stands { Goes self.old self.new }
    {
        match self.devices.get_mut(device) {
            Some(found) => found.be_another(),
            None => false,
        }
    }

    /// A device says something else of itself than before, where this is so.
    pub(crate) fn say_anew_if(&mut self, is_new: bool, device: usize)
        ensures time { KeepsTime self.old self.new }
        ensures stands { Goes self.old self.new }
    {
        if is_new {
            self.say_anew(device);
        }
    }

    fn say_anew(&mut self, device: usize)
        ensures time { KeepsTime self.old self.new }
        ensures stands { Goes self.old self.new }
    {
        if let Some(found) = self.devices.get_mut(device) {
            found.say_anew();
        }
    }

    /// A request to a device is counted.
    pub(crate) fn count_request(&mut self, device: usize)
        ensures counts { (own : DeviceValue) → slice_get self.old.devices.items device ≡ Some own → counts_at self.new device ≡ Some (asked_once_more own.counts) }
        ensures time { KeepsTime self.old self.new }
        ensures stands { Goes self.old self.new }
    {
        if let Some(found) = self.devices.get_mut(device) {
            found.counts.ask();
        }
    }

    /// A device is lost; it is told where it wasn't before.
    pub(crate) fn lose(&mut self, device: usize, loss: Loss)
        ensures loses { (own : DeviceValue) → slice_get self.old.devices.items device ≡ Some own → Loses device loss own self.old self.new }
        ensures counts { CountsLoss device loss self.old self.new }
        ensures time { KeepsTime self.old self.new }
        ensures stands { LosesBy (IsLost device loss) self.old self.new }
    {
        if let Some(found) = self.devices.get_mut(device) {
            if found.lose(loss) {
                self.notes.add(Notice::Lost(device, loss));
            }
        }
    }

    /// A device answered, one that has a map or not.
    pub(crate) fn hear(&mut self, device: usize, is_mapped: bool)
        ensures hears { (own : DeviceValue) → slice_get self.old.devices.items device ≡ Some own → HearsFrom device is_mapped own self.old self.new }
        ensures time { KeepsTime self.old self.new }
        ensures stands { Goes self.old self.new }
    {
        if let Some(found) = self.devices.get_mut(device) {
            if found.heard(is_mapped) {
                self.notes.add(Notice::Back(device));
            }
        }
    }

    /// A device refused to read registers; it is told where it is one more.
    pub(crate) fn refuse(&mut self, device: usize, refusal: ReadRefusal)
        ensures refuses { (own : DeviceValue) → slice_get self.old.devices.items device ≡ Some own → Refuses device refusal own self.old self.new }
        ensures time { KeepsTime self.old self.new }
        ensures stands { Goes self.old self.new }
    {
        if let Some(found) = self.devices.get_mut(device) {
            if found.refuse(refusal) {
                self.notes.add(Notice::Refused(device, refusal));
            }
        }
    }

    /// An answer of a device came over the connection that there is.
    pub(crate) fn hear_over(&mut self, device: usize)
        ensures counts { counts_at self.new device ≡ counts_at self.old device }
        ensures time { KeepsTime self.old self.new }
        ensures stands { Goes self.old self.new }
    {
        if let Some(found) = self.devices.get_mut(device) {
            found.hear();
        }
    }

    /// A device answered after so many milliseconds.
    pub(crate) fn replied(&mut self, device: usize, after: u64)
        ensures counts { counts_at self.new device ≡ counts_at self.old device }
        ensures time { KeepsTime self.old self.new }
        ensures stands { Goes self.old self.new }
    {
        if let Some(found) = self.devices.get_mut(device) {
            found.replied(after);
        }
    }

    /// A request to a device had an answer, or none.
    pub(crate) fn note_write(&mut self, device: usize, aim: Aim, is_answered: bool)
        ensures counts { KeepsLosses self.old self.new }
        ensures time { KeepsTime self.old self.new }
        ensures stands { Goes self.old self.new }
    {
        if let Aim::Output(_) = aim {
            if let Some(found) = self.devices.get_mut(device) {
                found.note_write(is_answered);
            }
        }
    }

    /// A device didn't answer: it isn't asked for a while.
    pub(crate) fn miss(&mut self, device: usize)
        ensures counts { KeepsLosses self.old self.new }
        ensures time { KeepsTime self.old self.new }
        ensures stands { Goes self.old self.new }
    {
        if let Some(found) = self.devices.get_mut(device) {
            found.miss(self.now, &self.limits);
        }
    }

    /// A scan plans the outputs of a device, or passes it over.
    pub(crate) fn scan_device(&mut self, device: usize, is_planned: bool)
        ensures counts { counts_at self.new device ≡ counts_at self.old device }
        ensures time { KeepsTime self.old self.new }
        ensures stands { Goes self.old self.new }
    {
        if let Some(found) = self.devices.get_mut(device) {
            found.scanned(is_planned);
        }
    }
}

impl DeviceSide {
    /// Whether the program is to run.
    pub(crate) fn is_due(&self) -> bool
        ensures { result ≡ nat_le self.entry.now.next_scan self.entry.now.now }
    {
        self.next_scan <= self.now
    }

    /// The program runs now: when it runs next. A scan that comes late is told, and the next one comes a period after it.
    pub(crate) fn plan_scan(&mut self)
        ensures time { PlansScan self.old self.new }
        ensures stands { Goes self.old self.new }
    {
        self.begin_writing();
        self.tell_late();
        self.set_times();
    }

    #[tactic(auto, using(crate::proofs::ByNotes::same_goes))]
    fn begin_writing(&mut self)
        ensures time { KeepsTime self.old self.new }
        ensures stands { Goes self.old self.new }
    {
        self.is_writing = true;
        self.writes = 0;
        self.refused = 0;
    }

    #[tactic(auto, using(crate::proofs::ByNotes::same_goes))]
    fn set_times(&mut self)
        ensures time { PlansScan self.old self.new }
        ensures stands { Goes self.old self.new }
    {
        self.next_scan = scan_after(self.limits.period, self.now, self.next_scan);
    }

    fn tell_late(&mut self)
        ensures time { KeepsTime self.old self.new }
        ensures stands { Goes self.old self.new }
    {
        if self.now > self.next_scan.saturating_add(self.limits.period) {
            self.tell(Notice::Late(self.now.saturating_sub(self.next_scan)));
        }
    }

    /// The program ran, and its scan came to this.
    #[tactic(auto, using(crate::proofs::ByNotes::counted_goes))]
    pub(crate) fn count_scan(&mut self, came: LastScan)
        ensures time { CountsScan came self.old self.new }
        ensures stands { RunsBy came (λ output became. ⊥) (λ output. ⊥) self.old self.new }
    {
        self.scans = self.scans.saturating_add(1);
        self.last_scan = came;
    }

    /// An output's write is waited for from now on, where one is to be made; where there is no set point for it, it isn't written.
    pub(crate) fn plan_output(
        &mut self,
        output: usize,
        plan: &Result<Write, NoWrite>,
        is_open: bool,
    )
        ensures time { KeepsTime self.old self.new }
        ensures stands { PlansBy (IsOfPlan output plan.now) (IsToWait output plan.now) self.old self.new }
    {
        match plan {
            Ok(_) => self.await_write(output, is_open),
            Err(cause) => self.leave_unwritten(output, Unwritten::NoSetPoint(*cause)),
        }
    }

    fn await_write(&mut self, output: usize, is_open: bool)
        ensures time { KeepsTime self.old self.new }
        ensures stands { PlansBy (λ which became. ⊥) (λ which. which ≡ output) self.old self.new }
    {
        if let Some(found) = self.outputs.get_mut(output) {
            found.wait(is_open);
        }
    }

    /// This became of an output; it is told where it is new.
    pub(crate) fn settle_output(&mut self, output: usize, state: OutputState)
        requires waited { state ≡ unwritten_for Unanswered → awaits_at self.old output ≡ true }
        ensures state { output < length self.old.outputs.items → told_at self.new.outputs.items output ≡ Some state }
        ensures time { KeepsTime self.old self.new }
        ensures counts { KeepsCounts self.old self.new }
        ensures stands { BecomesBy (IsThis output state) self.old self.new }
    {
        if let Some(found) = self.outputs.get_mut(output) {
            if found.settle(state) {
                self.notes.add(note_of(output, state));
            }
        }
    }

    /// The device of an output shows this of it; it is told where that is new. One that isn't compared stays as it is.
    pub(crate) fn show(&mut self, output: usize, shown: Shown)
        ensures shows { (k : ℕ) → slice_get self.new.outputs.items k ≡ (if k == output then option_map (showing shown) (slice_get self.old.outputs.items k) else slice_get self.old.outputs.items k) }
        ensures time { KeepsTime self.old self.new }
        ensures counts { KeepsCounts self.old self.new }
        ensures stands { ShowsBy (IsShown output shown) self.old self.new }
    {
        if let Some(found) = self.outputs.get_mut(output) {
            if found.show(shown) {
                self.notes.add(note_by(output, shown));
            }
        }
    }

    /// Whether what the device of an output shows is compared with what it took.
    pub(crate) fn compares(&self, output: usize) -> bool
        ensures { result ≡ compares_at self.entry.now output }
    {
        match self.outputs.get(output) {
            Some(found) => found.is_read_back(),
            None => false,
        }
    }

    /// An output isn't written, for this; it is told where it is new.
    fn leave_unwritten(&mut self, output: usize, cause: Unwritten)
        requires waited { cause ≡ Unanswered → awaits_at self.old output ≡ true }
        ensures time { KeepsTime self.old self.new }
        ensures counts { KeepsCounts self.old self.new }
        ensures stands { BecomesBy (IsThis output (unwritten_for cause)) self.old self.new }
    {
        self.settle_output(output, OutputState::Unwritten(cause));
    }

    /// A write went out, and this came of it.
    #[tactic(auto, using(crate::proofs::ByNotes::same_goes))]
    pub(crate) fn wrote(&mut self, is_done: bool)
        ensures now { self.new ≡ record self.old { writes = self.new.writes; refused = self.new.refused } }
        ensures stands { Goes self.old self.new }
    {
        self.writes = self.writes.saturating_add(1);
        if !is_done {
            self.refused = self.refused.saturating_add(1);
        }
    }

    /// A request had no answer: where it wrote, that came to nothing.
    #[tactic(auto, using(crate::proofs::ByNotes::same_goes))]
    pub(crate) fn lose_write(&mut self, aim: Aim)
        ensures devices { self.new.devices ≡ self.old.devices }
        ensures time { KeepsTime self.old self.new }
        ensures stands { Goes self.old self.new }
    {
        if let Aim::Output(_) = aim {
            self.wrote(false);
        }
    }

    /// What the last scan planned is over: what was to be written and isn't any more wasn't done.
    pub(crate) fn finish(&mut self, report: Report, round: &Round)
        requires report { IsReportOf self.old report }
        ensures time { KeepsTime self.old self.new }
        ensures stands { BecomesBy IsUnanswered self.old self.new }
    {
        self.end_writing();
        for output in 0..self.outputs.len() {
            if self.is_awaited(output) && !round.is_open(output) {
                self.leave_unanswered(output);
            }
        }
        self.tell(Notice::Scanned(report));
    }

    /// Nothing came of an output's write.
    fn leave_unanswered(&mut self, output: usize)
        requires waited { awaits_at self.old output ≡ true }
        ensures time { KeepsTime self.old self.new }
        ensures counts { KeepsCounts self.old self.new }
        ensures stands { BecomesBy IsUnanswered self.old self.new }
    {
        self.leave_unwritten(output, Unwritten::Unanswered);
    }

    #[tactic(auto, using(crate::proofs::ByNotes::same_goes))]
    fn end_writing(&mut self)
        ensures time { KeepsTime self.old self.new }
        ensures counts { KeepsCounts self.old self.new }
        ensures stands { Goes self.old self.new }
    {
        self.is_writing = false;
    }

    fn is_awaited(&self, output: usize) -> bool
        ensures { result ≡ awaits_at self.entry.now output }
    {
        match self.outputs.get(output) {
            Some(found) => found.is_awaited,
            None => false,
        }
    }
}

/// What is told of an output that this became of.
fn note_of(output: usize, state: OutputState) -> Notice
    ensures { result ≡ note_of output state }
{
    match state {
        OutputState::Written => Notice::Written(output),
        OutputState::Unwritten(cause) => Notice::Unwritten(output, cause),
    }
}

/// What is told of an output whose device shows this.
fn note_by(output: usize, shown: Shown) -> Notice
    ensures { result ≡ note_by output shown }
{
    match shown {
        Shown::Same => Notice::Agrees(output),
        Shown::Other(difference) => Notice::Differs(output, difference),
    }
}

/// The scan that was to be at a time is now: when the next one is to be.
fn scan_after(period: u64, now: u64, at: u64) -> u64
    ensures { result ≡ scan_after period now at }
{
    not_over(
        period,
        now,
        planned_from(period, now, at).saturating_add(period),
    )
}

/// From when on the next scan is planned: one that comes more than a period after its time isn't made up for.
fn planned_from(period: u64, now: u64, at: u64) -> u64
    ensures { result ≡ planned_from period now at }
{
    if at.saturating_add(period) < now {
        now
    } else {
        at
    }
}

/// A time that isn't over yet, or else a period from now on.
fn not_over(period: u64, now: u64, at: u64) -> u64
    ensures { result ≡ not_over period now at }
{
    if at <= now {
        now.saturating_add(period.max(1))
    } else {
        at
    }
}
