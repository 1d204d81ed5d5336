//! What happens to a core and its round, step by step.
ghost use Rattle.std.specs.Prelude.{◌≡◌, ◌<◌, ◌+◌, ℕ, All, List, [], Option, length, set, slice_get, slice_set, IfSome, IsTrue, None, Some, false, true};
ghost use Rattle.site_model.specs.declared.device.SiteDevice.{SiteDevice as DeviceValue};
ghost use Rattle.modbus_frame.specs.Message.{HasQuantity, IsRequest};
ghost use Rattle.gateway.specs.declared.poller.cycle.Call.{Call as CallValue};
ghost use Rattle.site_model.specs.declared.want.Want.{Want as WantValue};
ghost use Rattle.gateway.specs.poller.Cycle.{read_of};
ghost use Rattle.gateway.specs.event_core.Control.{after_wait};
ghost use Rattle.gateway.specs.event_core.Restoring.{NothingSets, SetsAlone};
ghost use Rattle.gateway.specs.event_core.SiteRun.{with_block};
ghost use Rattle.service_requests.specs.declared.request_end.RequestEnd.TheVariants.{Told as ToldFate};
ghost use Rattle.service_requests.specs.Searches.{HasStepQuantity, Sought as SoughtValue, common_by};
ghost use Rattle.service_parts.specs.declared.asked.Aim.{Aim as AimValue};
ghost use Rattle.service_parts.specs.declared.asked.Aim.TheVariants.{Block as BlockAim, Output as OutputAim};
ghost use Rattle.service_parts.specs.Calls.{IsCallFor};
ghost use Rattle.service_parts.specs.Frames.{outputs_of};
ghost use Rattle.service_parts.specs.Requests.{IsOfRound};
ghost use Rattle.service_parts.specs.Seeking.{IsFound, IsSought};
ghost use Rattle.service.specs.declared.round.Turn.TheVariants.{Ask as AskTurn};
ghost use Rattle.service.specs.Cycle.{ClientsLeadOn, EndsOwn, LeadsOn, stage_of};
ghost use Rattle.service.specs.Forgetting.{first_but, forgotten, with_blocks, without_blocks};
ghost use Rattle.service.specs.GivingUp.{GivesUp};
ghost use Rattle.service.specs.Going.{NoMoreDue, TakesNext};
ghost use Rattle.service.specs.Having.{IsToWrite, IsUnplanned};
ghost use Rattle.service.specs.LeftOut.{GivesNext};
ghost use Rattle.service.specs.Rounds.{AreRecentTo, IsRecent, IsSendable, told_at};
ghost use Rattle.service.specs.Stages.{Ends, OpensNext, Scans, Skips, TakesEvent, Tells, Waits};
ghost use Rattle.service.specs.Timing.{KeepsTime};
ghost use Rattle.service.specs.Told.{PlansBy};

use crate::cycle::Cycle;
use crate::device_side::DeviceSide;
use crate::round::Turn;
use crate::wish::Wish;
use gateway::{Core, DEPTH, Event, Outcome, event_by, read_of};
use modbus_frame::{Request, request_pdu};
use register_map::Map;
use service_parts::Aim;
use service_requests::{Search, SearchStep};
use site_model::Want;

impl Cycle {
    /// From now on this is the device's map, which its search found, or it has none.
    #[tactic(auto, using(crate::proofs::Courses::goes_learns, crate::proofs::Courses::reached_learns))]
    pub fn learn(&mut self, device: usize, map: Option<Map>)
        requires { ∥ IsFound self.old.core.value.site device map ∥₁ }
        ensures goes { LeadsOn self.old self.new }
        ensures learned { device < length self.old.core.value.site.devices → self.new.core.value ≡ record self.old.core.value { maps = set self.old.core.value.maps device map } }
        ensures round { self.new.round ≡ self.old.round }
    {
        if device < self.devices() {
            self.core.learn(device, map);
        }
    }

    /// What was known of a device is known no more: it has no map, and its blocks are lost.
    pub fn forget(&mut self, device: usize)
        ensures at { self.new.round.at ≡ self.old.round.at }
        ensures forgotten { device < length self.old.core.value.site.devices → self.new.core.value ≡ forgotten device self.old.core.value }
        ensures writes { self.new.round.writes ≡ self.old.round.writes }
        ensures goes { LeadsOn self.old self.new }
    {
        self.learn(device, None);
        self.lose_blocks(device);
    }

    /// The wanted blocks of a device aren't known any more.
    #[tactic(auto, using(crate::proofs::Forgetting::none_so_far, crate::proofs::Forgetting::one_further))]
    pub fn lose_blocks(&mut self, device: usize)
        ensures lost { self.new.core.value ≡ without_blocks device self.old.core.value }
        ensures writes { self.new.round.writes ≡ self.old.round.writes }
        ensures at { self.new.round.at ≡ self.old.round.at }
        ensures goes { LeadsOn self.old self.new }
    {
        for i in 0..self.core.site().wants().len() {
            self.lose_block(device, i);
        }
    }

    /// The block of a want is lost, where the want is of this device.
    fn lose_block(&mut self, device: usize, i: usize)
        ensures lost { (before : List (Option (List ℕ))) → self.old.core.value.standing.blocks ≡ first_but device i self.old.core.value.site.wants before
            → self.new.core.value ≡ with_blocks (first_but device (i + 1) self.old.core.value.site.wants before) self.old.core.value }
        ensures writes { self.new.round.writes ≡ self.old.round.writes }
        ensures at { self.new.round.at ≡ self.old.round.at }
        ensures goes { LeadsOn self.old self.new }
    {
        let Some(want) = self.want_at(i) else {
            return;
        };
        if want.device == device {
            self.lose_want(i, want);
        }
    }

    /// The i-th want of the site.
    fn want_at(&self, i: usize) -> Option<Want>
        ensures { result ≡ slice_get self.now.core.value.site.wants i }
    {
        match self.core.site().wants().get(i) {
            Some(want) => Some(*want),
            None => None,
        }
    }

    /// The block of a want is lost: not for the next plan of its device.
    fn lose_want(&mut self, i: usize, want: Want)
        requires wanted { slice_get self.old.core.value.site.wants i ≡ Some want }
        ensures lost { self.new.core.value ≡ with_blocks (with_block self.old.core.value.site.wants want None self.old.core.value.standing.blocks) self.old.core.value }
        ensures round { self.new.round ≡ record self.old.round { told = told_at i false self.old.round.told } }
        ensures goes { LeadsOn self.old self.new }
    {
        self.round.tell(i, false);
        tell(&mut self.core, Event::Lost(want));
    }

    /// There is no request for the block of a want: it is lost, for the next plan of its device.
    fn lack_want(&mut self, i: usize, want: Want)
        requires wanted { slice_get self.old.core.value.site.wants i ≡ Some want }
        requires none { read_of self.old.core.value.site self.old.core.value.maps want ≡ None }
        ensures round { self.new.round ≡ record self.old.round { told = told_at i true self.old.round.told } }
        ensures goes { LeadsOn self.old self.new }
    {
        self.round.tell(i, true);
        tell(&mut self.core, Event::Lost(want));
    }

    /// Blocks that were told too many scans ago aren't known any more.
    pub fn expire(&mut self)
        ensures recent { All IsRecent self.new.round.told }
        ensures writes { self.new.round.writes ≡ self.old.round.writes }
        ensures at { self.new.round.at ≡ self.old.round.at }
        ensures goes { LeadsOn self.old self.new }
    {
        for i in 0..self.core.site().wants().len() {
            self.expire_block(i);
        }
    }

    fn expire_block(&mut self, i: usize)
        ensures recent { AreRecentTo i self.old.round.told → AreRecentTo (i + 1) self.new.round.told }
        ensures count { length self.new.round.told ≡ length self.old.round.told }
        ensures writes { self.new.round.writes ≡ self.old.round.writes }
        ensures at { self.new.round.at ≡ self.old.round.at }
        ensures goes { LeadsOn self.old self.new }
    {
        if self.round.is_recent(i) {
            return;
        }
        if let Some(want) = self.want_at(i) {
            self.lose_want(i, want);
        }
    }

    /// What comes next in the search for a device's map.
    pub fn seek(&self, device: usize) -> Option<SearchStep>
        ensures sought { IfSome result (λ step. ∥ IsSought self.now.core.value.site device step ∥₁) }
        ensures quantity { IfSome result HasStepQuantity }
    {
        let search = self.searches.get(device)?;
        Some(search.next())
    }

    /// Takes what came of a read of a device's search over the connection with this number; whether that was the read of its common
    /// model. A search over another one stays as it is.
    pub fn answered(&mut self, device: usize, number: u64, outcome: &Outcome) -> bool
        ensures same { stage_of self.new ≡ stage_of self.old }
        ensures over { self.new.over ≡ self.old.over }
        ensures other { (slice_get self.old.over.items device ≡ Some number → ⊥) → self.new ≡ self.old }
    {
        if !self.is_sought_over(device, number) {
            return false;
        }
        match self.searches.get_mut(device) {
            Some(search) => take(search, outcome),
            None => false,
        }
    }

    /// From now on the device's map is searched from the start, over the connection with this number; then its common model is read,
    /// where it has to say which device it is.
    pub fn seek_anew(&mut self, device: usize, number: u64, is_to_say: bool)
        ensures at { self.new.round.at ≡ self.old.round.at }
        ensures writes { self.new.round.writes ≡ self.old.round.writes }
        ensures goes { LeadsOn self.old self.new }
        ensures begins { (own : DeviceValue) (search : SoughtValue) → slice_get self.old.core.value.site.devices device ≡ Some own → slice_get self.old.searches.items device ≡ Some search
            → slice_get self.new.searches.items device ≡ Some (record { base = own.base; answers = []; common = common_by is_to_say }) }
        ensures over { (other : ℕ) → slice_get self.old.over.items device ≡ Some other → slice_get self.new.over.items device ≡ Some number }
    {
        self.begin_search(device, is_to_say);
        self.search_over(device, number);
    }

    fn begin_search(&mut self, device: usize, is_to_say: bool)
        ensures at { self.new.round.at ≡ self.old.round.at }
        ensures writes { self.new.round.writes ≡ self.old.round.writes }
        ensures goes { LeadsOn self.old self.new }
        ensures begins { (own : DeviceValue) (search : SoughtValue) → slice_get self.old.core.value.site.devices device ≡ Some own → slice_get self.old.searches.items device ≡ Some search
            → slice_get self.new.searches.items device ≡ Some (record { base = own.base; answers = []; common = common_by is_to_say }) }
        ensures same { self.new.over ≡ self.old.over }
    {
        let base = match self.core.site().devices().get(device) {
            Some(own) => own.base,
            None => return,
        };
        if let Some(search) = self.searches.get_mut(device) {
            *search = Search::new(base, is_to_say);
        }
    }

    fn search_over(&mut self, device: usize, number: u64)
        ensures over { (other : ℕ) → slice_get self.old.over.items device ≡ Some other → slice_get self.new.over.items device ≡ Some number }
        ensures same { self.new ≡ record self.old { over = self.new.over } }
    {
        if let Some(over) = self.over.get_mut(device) {
            *over = number;
        }
    }

    /// The next request for a wanted block of the device that wasn't told since its outputs were planned last. A block that
    /// there is no request for is lost.
    #[tactic(auto, using(service_parts::proofs::Rightful::of_round))]
    pub fn next_read(&mut self, device: usize) -> Option<Wish>
        ensures goes { LeadsOn self.old self.new }
        ensures asked { IfSome result (λ wish. IsOfRound self.new.core.value wish.aim device wish.request) }
        ensures quantity { IfSome result (λ wish. HasQuantity wish.request) }
        ensures reads { IfSome result (λ wish. outputs_of wish.aim ≡ []) }
        ensures writes { self.new.round.writes ≡ self.old.round.writes }
        ensures at { self.new.round.at ≡ self.old.round.at }
    {
        for _ in 0..self.core.site().wants().len() {
            let Some(i) = self.round.untold(device) else {
                return None;
            };
            if let Some(wish) = self.read_of(device, i) {
                return Some(wish);
            }
            self.lack(i);
        }
        None
    }

    /// The request for the wanted block of this number, where it is one of the device.
    #[tactic(auto, using(service_parts::proofs::Rightful::of_round))]
    fn read_of(&self, device: usize, i: usize) -> Option<Wish>
        ensures none { result ≡ None → (want : WantValue) → slice_get self.entry.now.core.value.site.wants i ≡ Some want → want.device ≡ device → read_of self.entry.now.core.value.site self.entry.now.core.value.maps want ≡ None }
        ensures asked { IfSome result (λ wish. IsOfRound self.now.core.value wish.aim device wish.request) }
        ensures quantity { IfSome result (λ wish. HasQuantity wish.request) }
        ensures reads { IfSome result (λ wish. outputs_of wish.aim ≡ []) }
    {
        let want = self.want_at(i)?;
        if want.device != device {
            return None;
        }
        let call = read_of(self.core.site(), self.core.maps(), want)?;
        Some(Wish {
            aim: Aim::Block(i),
            request: call.request,
        })
    }

    /// There is no request for the wanted block of this number: it is lost.
    fn lack(&mut self, i: usize)
        requires none { (want : WantValue) → slice_get self.old.core.value.site.wants i ≡ Some want → read_of self.old.core.value.site self.old.core.value.maps want ≡ None }
        ensures goes { LeadsOn self.old self.new }
        ensures writes { self.new.round.writes ≡ self.old.round.writes }
        ensures at { self.new.round.at ≡ self.old.round.at }
    {
        if let Some(want) = self.want_at(i) {
            self.lack_want(i, want);
        }
    }

    /// The next write to the device, and what it is made for.
    #[tactic(auto, using(service_parts::proofs::Rightful::of_round, crate::proofs::LeftOut::is_next))]
    pub fn next_write(&mut self, device: usize) -> Option<Wish>
        ensures at { self.new.round.at ≡ self.old.round.at }
        ensures goes { LeadsOn self.old self.new }
        ensures asked { IfSome result (λ wish. IsOfRound self.new.core.value wish.aim device wish.request) }
        ensures quantity { IfSome result (λ wish. HasQuantity wish.request) }
        ensures next { GivesNext device result (stage_of self.old) (stage_of self.new) }
        ensures due { TakesNext result self.old.round.writes self.new.round.writes }
    {
        match self.open(device) {
            Turn::Ask(aim, call) => Some(Wish {
                aim,
                request: call.request,
            }),
            Turn::Rest => None,
        }
    }

    fn open(&mut self, device: usize) -> Turn
        ensures at { self.new.round.at ≡ self.old.round.at }
        ensures opens { OpensNext device result (stage_of self.old) (stage_of self.new) }
        ensures goes { LeadsOn self.old self.new }
        ensures called { (aim : AimValue) (call : CallValue) → result ≡ AskTurn aim call → IsCallFor self.new.core.value aim device call }
        ensures quantity { IsSendable result }
    {
        self.round.open(&self.core, device)
    }

    /// Takes the outcome of the request for the wanted block of this number; whether the words that came are no block of its
    /// model.
    pub fn close_block(&mut self, device: usize, want: usize, outcome: Outcome) -> bool
        ensures at { self.new.round.at ≡ self.old.round.at }
        ensures writes { self.new.round.writes ≡ self.old.round.writes }
        ensures ends { EndsOwn (BlockAim want) device outcome (stage_of self.old) (stage_of self.new) }
    {
        match self.want_at(want) {
            Some(own) => self.tell_block(want, own, outcome),
            None => false,
        }
    }

    fn tell_block(&mut self, i: usize, want: Want, outcome: Outcome) -> bool
        requires wanted { slice_get self.old.core.value.site.wants i ≡ Some want }
        ensures at { self.new.round.at ≡ self.old.round.at }
        ensures writes { self.new.round.writes ≡ self.old.round.writes }
        ensures tells { Tells i (ToldFate outcome) true (stage_of self.old) (stage_of self.new) }
    {
        let event = event_by(want, outcome);
        let foreign = is_foreign(&event);
        self.round.tell(i, true);
        tell(&mut self.core, event);
        foreign
    }

    /// The device answered its request that writes an output, where that is still under way.
    pub fn close_write(&mut self, device: usize, output: usize, outcome: &Outcome)
        ensures at { self.new.round.at ≡ self.old.round.at }
        ensures due { NoMoreDue self.old.round.writes self.new.round.writes }
        ensures ends { EndsOwn (OutputAim output) device outcome.now (stage_of self.old) (stage_of self.new) }
    {
        if self.round.is_writing(device, output) {
            self.drop_write(device);
        }
    }

    /// The device's write that is under way is over.
    pub fn drop_write(&mut self, device: usize)
        ensures at { self.new.round.at ≡ self.old.round.at }
        ensures due { NoMoreDue self.old.round.writes self.new.round.writes }
        ensures ends { Ends device (stage_of self.old) (stage_of self.new) }
        ensures goes { LeadsOn self.old self.new }
    {
        self.round.close(device);
    }

    /// Nothing more is written to a device, and its wanted blocks aren't known any more.
    pub fn give_up(&mut self, device: usize)
        ensures at { self.new.round.at ≡ self.old.round.at }
        ensures due { NoMoreDue self.old.round.writes self.new.round.writes }
        ensures over { GivesUp device (stage_of self.old) (stage_of self.new) }
        ensures goes { LeadsOn self.old self.new }
    {
        self.skip_writes(device);
        self.lose_blocks(device);
    }

    pub fn skip_writes(&mut self, device: usize)
        ensures at { self.new.round.at ≡ self.old.round.at }
        ensures due { NoMoreDue self.old.round.writes self.new.round.writes }
        ensures skips { Skips device (stage_of self.old) (stage_of self.new) }
        ensures goes { LeadsOn self.old self.new }
    {
        self.round.skip(device);
    }

    /// Sets a tag, as a client's write does, to a number in the unit of the tag's exponent; whether some client's write does
    /// so. Where none does nothing changes.
    pub fn restore(&mut self, tag: usize, number: i64) -> bool
        ensures at { self.new.round.at ≡ self.old.round.at }
        ensures goes { ClientsLeadOn self.old self.new }
        ensures sets { IsTrue result → self.new.core.value.standing ≡ record self.old.core.value.standing { sets = slice_set self.old.core.value.standing.sets tag (Some number); ages = slice_set self.old.core.value.standing.ages tag (Some 0) } }
        ensures refused { result ≡ false → (self.new.core.value ≡ self.old.core.value) × NothingSets self.old.core.value.site tag number }
    {
        match self.request_to_set(tag, number) {
            Some(request) => {
                self.set(&request, tag, number);
                true
            }
            None => false,
        }
    }

    /// So many milliseconds went by, beside those that scans tell: what clients set is older by them.
    pub fn pass(&mut self, elapsed: u32)
        ensures at { self.new.round.at ≡ self.old.round.at }
        ensures passed { self.new.core.value ≡ after_wait elapsed self.old.core.value }
        ensures waits { Waits elapsed (stage_of self.old) (stage_of self.new) }
    {
        tell(&mut self.core, Event::Time(elapsed));
    }

    /// The request by which a client sets a tag to this number, and nothing else.
    fn request_to_set(&self, tag: usize, number: i64) -> Option<Request>
        ensures request { IfSome result IsRequest }
        ensures alone { IfSome result (SetsAlone self.now.core.value.site tag number) }
        ensures none { result ≡ None → NothingSets self.now.core.value.site tag number }
    {
        self.core.request_to_set(tag, number)
    }

    /// A tag is set by the request that does so, as a client's.
    #[tactic(auto, using(crate::proofs::Restored::set_alone))]
    fn set(&mut self, request: &Request, tag: usize, number: i64)
        requires request { IsRequest request.now }
        requires alone { SetsAlone self.old.core.value.site tag number request.now }
        ensures at { self.new.round.at ≡ self.old.round.at }
        ensures goes { ClientsLeadOn self.old self.new }
        ensures sets { self.new.core.value.standing ≡ record self.old.core.value.standing { sets = slice_set self.old.core.value.standing.sets tag (Some number); ages = slice_set self.old.core.value.standing.ages tag (Some 0) } }
    {
        self.core.step(Event::Client(request_pdu(request)));
    }

    /// Runs the program once, at this time, and tells the devices' side what is planned for each output.
    pub(crate) fn scan(&mut self, side: &mut DeviceSide, now: u64)
        requires recent { All IsRecent self.old.round.told }
        ensures scans { Scans now (stage_of self.old) (stage_of self.new) }
        ensures time { KeepsTime side.old side.new }
        ensures stands { PlansBy (IsUnplanned self.new.core.value) (IsToWrite self.new.core.value) side.old side.new }
    {
        self.round.scan(&mut self.core, side, now);
    }

    /// Whether nothing is left to be written.
    pub fn is_complete(&self) -> bool {
        self.round.is_complete()
    }
}

/// Takes the outcome of a search's read, where it takes more; whether that was the read of the common model.
fn take(search: &mut Search, outcome: &Outcome) -> bool
    ensures { search.new.base ≡ search.old.base }
{
    if search.is_common_next() {
        search.end_common();
        return true;
    }
    if !search.is_full() {
        search.take(outcome);
    }
    false
}

/// The core takes an event.
fn tell(core: &mut Core<DEPTH>, event: Event)
    ensures told { TakesEvent event core.old core.new }
    ensures site { core.new.site ≡ core.old.site }
{
    core.step(event);
}

/// Whether words don't begin with their model's ID.
fn is_foreign(event: &Event) -> bool {
    match event {
        Event::Block(want, words) => match words.as_slice() {
            [first, ..] => *first != want.model,
            [] => true,
        },
        _ => false,
    }
}
