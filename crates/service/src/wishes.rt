//! What a device may be asked next, for each purpose.
ghost use Rattle.std.specs.Prelude.{◌≡◌, ◌≤◌, ◌<◌, ℕ, IfSome, Some, [], length, set, slice_get, true};
ghost use Rattle.modbus_frame.specs.Message.{HasQuantity};
ghost use Rattle.service_requests.specs.declared.search.SearchStep.TheVariants.{Found};
ghost use Rattle.service.specs.Told.{Goes};
ghost use Rattle.service_parts.specs.Frames.{outputs_of};
ghost use Rattle.service_parts.specs.Overdue.{least_wait};
ghost use Rattle.service_parts.specs.Requests.{MayGoOver};
ghost use Rattle.service_parts.specs.Seeking.{IsSought};
ghost use Rattle.service.specs.Staying.{Stays};
ghost use Rattle.service.specs.Together.{GoTogether, MayBegin};
ghost use Rattle.service.specs.Going.{LinksGo, WishGoes};
ghost use Rattle.service.specs.Having.{HasNoMore, WritesHad};
ghost use Rattle.service.specs.Identity.{is_right};
ghost use Rattle.service.specs.Cycle.{LeadsOn};

use crate::link_pace::Purpose;
use crate::service_state::Service;
use crate::wish::Wish;
use register_map::Map;
use service_parts::Aim;
use service_requests::SearchStep;

impl Service {
    #[tactic(auto, using(crate::proofs::Going::reads_go, crate::proofs::Together::reads_begin))]
    pub(crate) fn wish_of(&mut self, link: usize, device: usize, purpose: Purpose) -> Option<Wish>
        ensures quantity { IfSome result (λ wish. HasQuantity wish.request) }
        ensures asked { IfSome result (λ wish. MayGoOver self.new.cycle.core.value self.new.lines.links.numbers.items self.new.lines.found_on.items link wish.aim device wish.request) }
        ensures paired { IfSome result (λ wish. MayBegin link self.new wish.aim) }
        ensures rest { Stays self.old self.new }
        ensures opens { WishGoes result self.old self.new }
        ensures goes { LeadsOn self.old.cycle self.new.cycle }
        ensures held { HasNoMore self.old.held self.new.held }
        ensures together { GoTogether self.old self.new }
        ensures stands { WritesHad self.old.held self.old.side self.new.side }
    {
        match purpose {
            Purpose::Write => self.wish_to_write(link, device),
            Purpose::Doubt => self.wish_to_make_sure(link, device),
            Purpose::GoOn => self.wish_to_go_on(link, device),
            Purpose::Read => self.wish_to_read(link, device),
            Purpose::Search => self.wish_to_search(link, device),
            Purpose::Probe => self.wish_to_probe(link, device),
            Purpose::Sign => self.wish_of_sign(link, device),
        }
    }

    /// Whether a device may be read and written: its last request was answered, and it has a map that was found over this very
    /// connection.
    pub(crate) fn is_served(&self, link: usize, device: usize) -> bool {
        self.side.is_good(device)
            && self.cycle.is_mapped(device)
            && self.lines.is_found(link, device)
    }

    /// A write to a device, by the map that was found over this very connection.
    #[tactic(auto, using(service_parts::proofs::Rightful::round_over, crate::proofs::Together::due_begins))]
    fn wish_to_write(&mut self, link: usize, device: usize) -> Option<Wish>
        ensures quantity { IfSome result (λ wish. HasQuantity wish.request) }
        ensures asked { IfSome result (λ wish. MayGoOver self.new.cycle.core.value self.new.lines.links.numbers.items self.new.lines.found_on.items link wish.aim device wish.request) }
        ensures paired { IfSome result (λ wish. MayBegin link self.new wish.aim) }
        ensures rest { Stays self.old self.new }
        ensures opens { WishGoes result self.old self.new }
        ensures goes { LeadsOn self.old.cycle self.new.cycle }
        ensures held { HasNoMore self.old.held self.new.held }
        ensures together { GoTogether self.old self.new }
        ensures stands { WritesHad self.old.held self.old.side self.new.side }
    {
        if !self.is_served(link, device) || !self.cycle.round().has_writes(device) {
            return None;
        }
        if !self.lines.is_found(link, device) {
            return None;
        }
        let number = self.lines.number_of(link)?;
        self.next_due(number, device)
    }

    /// A read of a device, by the map that was found over this very connection.
    #[tactic(auto, using(service_parts::proofs::Rightful::round_over))]
    fn wish_to_read(&mut self, link: usize, device: usize) -> Option<Wish>
        ensures quantity { IfSome result (λ wish. HasQuantity wish.request) }
        ensures asked { IfSome result (λ wish. MayGoOver self.new.cycle.core.value self.new.lines.links.numbers.items self.new.lines.found_on.items link wish.aim device wish.request) }
        ensures rest { Stays self.old self.new }
        ensures reads { IfSome result (λ wish. outputs_of wish.aim ≡ []) }
        ensures lines { LinksGo self.old self.new }
        ensures goes { LeadsOn self.old.cycle self.new.cycle }
        ensures held { HasNoMore self.old.held self.new.held }
        ensures together { GoTogether self.old self.new }
        ensures stands { Goes self.old.side self.new.side }
    {
        if !self.is_served(link, device) || !self.side.is_read_now(device) {
            return None;
        }
        if !self.lines.is_found(link, device) {
            return None;
        }
        self.cycle.next_read(device)
    }

    /// The first read of the search for a device's map, where it answered all requests but the last one: most such devices are well.
    fn wish_to_make_sure(&mut self, link: usize, device: usize) -> Option<Wish>
        ensures quantity { IfSome result (λ wish. HasQuantity wish.request) }
        ensures asked { IfSome result (λ wish. MayGoOver self.new.cycle.core.value self.new.lines.links.numbers.items self.new.lines.found_on.items link wish.aim device wish.request) }
        ensures rest { Stays self.old self.new }
        ensures reads { IfSome result (λ wish. outputs_of wish.aim ≡ []) }
        ensures lines { LinksGo self.old self.new }
        ensures goes { LeadsOn self.old.cycle self.new.cycle }
        ensures held { HasNoMore self.old.held self.new.held }
        ensures together { GoTogether self.old self.new }
        ensures stands { Goes self.old.side self.new.side }
    {
        if self.side.is_sought(device)
            && self.side.is_just_missed(device)
            && self.side.may_try(link)
        {
            self.wish_anew(link, device)
        } else {
            None
        }
    }

    /// The next read of the search for a device's map, before others are read; the first one of a device that didn't answer.
    fn wish_to_go_on(&mut self, link: usize, device: usize) -> Option<Wish>
        ensures quantity { IfSome result (λ wish. HasQuantity wish.request) }
        ensures asked { IfSome result (λ wish. MayGoOver self.new.cycle.core.value self.new.lines.links.numbers.items self.new.lines.found_on.items link wish.aim device wish.request) }
        ensures rest { Stays self.old self.new }
        ensures reads { IfSome result (λ wish. outputs_of wish.aim ≡ []) }
        ensures lines { LinksGo self.old self.new }
        ensures goes { LeadsOn self.old.cycle self.new.cycle }
        ensures held { HasNoMore self.old.held self.new.held }
        ensures together { GoTogether self.old self.new }
        ensures stands { Goes self.old.side self.new.side }
    {
        if !self.side.is_sought(device) {
            return None;
        }
        if !self.side.is_good(device) && self.side.probes_first(link, device) {
            return self.wish_anew(link, device);
        }
        if self.goes_first(link, device) {
            self.wish_of_search(link, device)
        } else {
            None
        }
    }

    /// The next read of the search for a device's map, at once.
    fn wish_of_sign(&mut self, link: usize, device: usize) -> Option<Wish>
        ensures quantity { IfSome result (λ wish. HasQuantity wish.request) }
        ensures asked { IfSome result (λ wish. MayGoOver self.new.cycle.core.value self.new.lines.links.numbers.items self.new.lines.found_on.items link wish.aim device wish.request) }
        ensures rest { Stays self.old self.new }
        ensures reads { IfSome result (λ wish. outputs_of wish.aim ≡ []) }
        ensures lines { LinksGo self.old self.new }
        ensures goes { LeadsOn self.old.cycle self.new.cycle }
        ensures held { HasNoMore self.old.held self.new.held }
        ensures together { GoTogether self.old self.new }
        ensures stands { Goes self.old.side self.new.side }
    {
        if self.cycle.is_mapped(device) || !self.side.is_sought(device) {
            None
        } else {
            self.wish_of_search(link, device)
        }
    }

    /// Whether the search for a device's map goes on before others are read: it answers soon, or wasn't asked yet.
    fn goes_first(&self, link: usize, device: usize) -> bool {
        if self.cycle.is_mapped(device) {
            return false;
        }
        if self.side.answers(device) {
            return self.side.goes_first(link, device);
        }
        self.side.is_untried(device) && self.side.may_try(link) && self.has_others(link, device)
    }

    /// The next read of the search for a device's map, where it answers or wasn't asked yet.
    fn wish_to_search(&mut self, link: usize, device: usize) -> Option<Wish>
        ensures quantity { IfSome result (λ wish. HasQuantity wish.request) }
        ensures asked { IfSome result (λ wish. MayGoOver self.new.cycle.core.value self.new.lines.links.numbers.items self.new.lines.found_on.items link wish.aim device wish.request) }
        ensures rest { Stays self.old self.new }
        ensures reads { IfSome result (λ wish. outputs_of wish.aim ≡ []) }
        ensures lines { LinksGo self.old self.new }
        ensures goes { LeadsOn self.old.cycle self.new.cycle }
        ensures held { HasNoMore self.old.held self.new.held }
        ensures together { GoTogether self.old self.new }
        ensures stands { Goes self.old.side self.new.side }
    {
        if self.side.is_good(device)
            && !self.cycle.is_mapped(device)
            && self.may_search(link, device)
        {
            self.wish_of_search(link, device)
        } else {
            None
        }
    }

    /// The first read of the search for a device's map, where it didn't answer.
    fn wish_to_probe(&mut self, link: usize, device: usize) -> Option<Wish>
        ensures quantity { IfSome result (λ wish. HasQuantity wish.request) }
        ensures asked { IfSome result (λ wish. MayGoOver self.new.cycle.core.value self.new.lines.links.numbers.items self.new.lines.found_on.items link wish.aim device wish.request) }
        ensures rest { Stays self.old self.new }
        ensures reads { IfSome result (λ wish. outputs_of wish.aim ≡ []) }
        ensures lines { LinksGo self.old self.new }
        ensures goes { LeadsOn self.old.cycle self.new.cycle }
        ensures held { HasNoMore self.old.held self.new.held }
        ensures together { GoTogether self.old self.new }
        ensures stands { Goes self.old.side self.new.side }
    {
        if !self.side.is_good(device) && self.may_search(link, device) {
            self.wish_anew(link, device)
        } else {
            None
        }
    }

    /// Whether a device may be asked something of its search now.
    fn may_search(&self, link: usize, device: usize) -> bool {
        self.side.is_sought(device) && self.fits(link, device)
    }

    /// The first read of the search for a device's map.
    pub(crate) fn wish_anew(&mut self, link: usize, device: usize) -> Option<Wish>
        ensures quantity { IfSome result (λ wish. HasQuantity wish.request) }
        ensures asked { IfSome result (λ wish. MayGoOver self.new.cycle.core.value self.new.lines.links.numbers.items self.new.lines.found_on.items link wish.aim device wish.request) }
        ensures rest { Stays self.old self.new }
        ensures reads { IfSome result (λ wish. outputs_of wish.aim ≡ []) }
        ensures lines { LinksGo self.old self.new }
        ensures goes { LeadsOn self.old.cycle self.new.cycle }
        ensures held { HasNoMore self.old.held self.new.held }
        ensures together { GoTogether self.old self.new }
        ensures stands { Goes self.old.side self.new.side }
    {
        self.seek_anew(device);
        self.wish_of_search(link, device)
    }

    fn seek_anew(&mut self, device: usize)
        ensures rest { Stays self.old self.new }
        ensures lines { LinksGo self.old self.new }
        ensures goes { LeadsOn self.old.cycle self.new.cycle }
        ensures held { HasNoMore self.old.held self.new.held }
        ensures together { GoTogether self.old self.new }
        ensures stands { Goes self.old.side self.new.side }
    {
        let number = self.lines.number_for(device);
        self.cycle
            .seek_anew(device, number, self.held.wants(device));
    }

    /// Whether a search of a device may go on now: no device that answers is kept waiting by it, or none was lately.
    fn fits(&self, link: usize, device: usize) -> bool {
        if self.side.answers(device) {
            return !self.serves_others(link, device)
                || self.side.may_spare(link, self.side.reply_of(device));
        }
        if !self.has_others(link, device) {
            return true;
        }
        let wait = self.wait_for(link, device);
        if self.side.is_good(device) {
            self.side.may_spare(link, wait)
        } else {
            self.side.may_probe(link, device, wait)
        }
    }

    /// Whether another device on a link answers.
    fn has_others(&self, link: usize, device: usize) -> bool {
        for i in 0..self.lines.devices_on(link) {
            if let Some(other) = self.lines.device_at(link, i) {
                if other != device && self.side.answers(other) {
                    return true;
                }
            }
        }
        false
    }

    /// Whether another device on a link is read and written.
    fn serves_others(&self, link: usize, device: usize) -> bool {
        for i in 0..self.lines.devices_on(link) {
            if let Some(other) = self.lines.device_at(link, i) {
                if other != device && self.is_served(link, other) {
                    return true;
                }
            }
        }
        false
    }

    /// How long an answer of a device is waited for: as long as one may take, or less on a link where others answer.
    fn wait_for(&self, link: usize, device: usize) -> u64
        ensures least { least_wait self.now.side.limits ≤ result }
        ensures most { result ≤ self.now.side.limits.timeout }
    {
        if self.has_others(link, device) {
            self.side.short_wait(link, device)
        } else {
            self.side.limits.timeout
        }
    }

    /// The same for one of these requests: a write to a device whose last write had no answer has all of the time, since its writes
    /// may take longer than its reads.
    pub(crate) fn wait_of(&self, link: usize, device: usize, aim: Aim) -> u64
        ensures least { least_wait self.now.side.limits ≤ result }
        ensures most { result ≤ self.now.side.limits.timeout }
    {
        match aim {
            Aim::Output(_) if self.side.is_write_missed(device) => self.side.limits.timeout,
            _ => self.wait_for(link, device),
        }
    }

    #[tactic(auto, using(service_parts::proofs::Rightful::search_over))]
    fn wish_of_search(&mut self, link: usize, device: usize) -> Option<Wish>
        ensures quantity { IfSome result (λ wish. HasQuantity wish.request) }
        ensures asked { IfSome result (λ wish. MayGoOver self.new.cycle.core.value self.new.lines.links.numbers.items self.new.lines.found_on.items link wish.aim device wish.request) }
        ensures rest { Stays self.old self.new }
        ensures reads { IfSome result (λ wish. outputs_of wish.aim ≡ []) }
        ensures lines { LinksGo self.old self.new }
        ensures goes { LeadsOn self.old.cycle self.new.cycle }
        ensures held { HasNoMore self.old.held self.new.held }
        ensures together { GoTogether self.old self.new }
        ensures stands { Goes self.old.side self.new.side }
    {
        match self.cycle.seek(device)? {
            SearchStep::Ask(request) => Some(Wish {
                aim: Aim::Map,
                request,
            }),
            SearchStep::Found(map) => {
                self.find_over(link, device, map);
                self.side.owe(link, false);
                None
            }
            SearchStep::Unnamed => {
                self.find_unnamed(device);
                self.side.owe(link, false);
                None
            }
            SearchStep::NoMap => {
                self.find_none(device);
                self.side.owe(link, false);
                None
            }
        }
    }

    /// A search found the device's map. It is learned where all of its answers came over the connection that the link has
    /// now, and the device said over it that it is the right one; else it is searched again over this one.
    fn find_over(&mut self, link: usize, device: usize, map: Map)
        requires { ∥ IsSought self.old.cycle.core.value.site device (Found map) ∥₁ }
        ensures rest { Stays self.old self.new }
        ensures lines { LinksGo self.old self.new }
        ensures goes { LeadsOn self.old.cycle self.new.cycle }
        ensures held { HasNoMore self.old.held self.new.held }
        ensures together { GoTogether self.old self.new }
        ensures stands { Goes self.old.side self.new.side }
    {
        let Some(number) = self.lines.number_of(link) else {
            return;
        };
        if !self.cycle.is_sought_over(device, number) {
            self.cycle
                .seek_anew(device, number, self.held.wants(device));
        } else if self.held.is_right(device, number) {
            self.find(link, device, number, map);
        } else {
            self.find_another(device);
        }
    }

    #[tactic(auto, using(crate::proofs::Together::same_together))]
    fn find(&mut self, link: usize, device: usize, number: u64, map: Map)
        requires sought { ∥ IsSought self.old.cycle.core.value.site device (Found map) ∥₁ }
        requires number { slice_get self.old.lines.links.numbers.items link ≡ Some number }
        requires over { slice_get self.old.cycle.over.items device ≡ Some number }
        requires right { is_right self.old.held.identities device number ≡ true }
        ensures learned { device < length self.old.cycle.core.value.site.devices → self.new.cycle.core.value.maps ≡ set self.old.cycle.core.value.maps device (Some map) }
        ensures found { (unit : ℕ) → slice_get self.old.lines.links.stations.items device ≡ Some (record { link = link; unit = unit })
            → device < length self.old.lines.found_on.items → self.new.lines.found_on.items ≡ set self.old.lines.found_on.items device (Some number) }
        ensures rest { Stays self.old self.new }
        ensures lines { LinksGo self.old self.new }
        ensures goes { LeadsOn self.old.cycle self.new.cycle }
        ensures held { HasNoMore self.old.held self.new.held }
        ensures together { GoTogether self.old self.new }
        ensures stands { Goes self.old.side self.new.side }
    {
        self.cycle.learn(device, Some(map));
        let is_found = self.lines.find(link, device, number);
        self.held.find_if(is_found, device);
        self.side.find(device);
    }

    /// A search found a map of a device that doesn't say what it has to.
    fn find_another(&mut self, device: usize)
        ensures rest { Stays self.old self.new }
        ensures lines { LinksGo self.old self.new }
        ensures goes { LeadsOn self.old.cycle self.new.cycle }
        ensures held { HasNoMore self.old.held self.new.held }
        ensures together { GoTogether self.old self.new }
        ensures stands { Goes self.old.side self.new.side }
    {
        self.seek_anew(device);
        self.side.find_another(device);
    }

    /// A search found a map of a device that says nothing of itself, though it has to.
    #[tactic(auto, using(crate::proofs::Saying::right_heard))]
    fn find_unnamed(&mut self, device: usize)
        ensures rest { Stays self.old self.new }
        ensures lines { LinksGo self.old self.new }
        ensures goes { LeadsOn self.old.cycle self.new.cycle }
        ensures held { HasNoMore self.old.held self.new.held }
        ensures together { GoTogether self.old self.new }
        ensures stands { Goes self.old.side self.new.side }
    {
        let is_new = self.held.hear_nothing(device);
        self.side.say_anew_if(is_new, device);
        self.find_another(device);
    }

    fn find_none(&mut self, device: usize)
        ensures rest { Stays self.old self.new }
        ensures lines { LinksGo self.old self.new }
        ensures goes { LeadsOn self.old.cycle self.new.cycle }
        ensures held { HasNoMore self.old.held self.new.held }
        ensures together { GoTogether self.old self.new }
        ensures stands { Goes self.old.side self.new.side }
    {
        let number = self.lines.number_for(device);
        self.cycle
            .seek_anew(device, number, self.held.wants(device));
        self.side.find_none(device);
    }
}
