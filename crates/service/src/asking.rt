//! What is asked of devices next.
ghost use Rattle.std.specs.Prelude.{◌≡◌, ℕ, Some, slice_get};
ghost use Rattle.modbus_frame.specs.Message.{HasQuantity, address_of};
ghost use Rattle.service.specs.declared.link_pace.LinkPace.{LinkPace as PaceValue};
ghost use Rattle.service.specs.Told.{Goes};
ghost use Rattle.service.specs.Turns.{turn_of};
ghost use Rattle.service.specs.Rewriting.{had_beside};
ghost use Rattle.service_parts.specs.Overdue.{IsTimed};
ghost use Rattle.service_parts.specs.Requests.{MayGoOver, words_of};
ghost use Rattle.service.specs.Staying.{Stays};
ghost use Rattle.service.specs.Together.{BeginsWith, GoTogether, MayBegin};
ghost use Rattle.service.specs.Going.{BeginsOf, LinksGo};
ghost use Rattle.service.specs.Having.{HasNoMore, WritesHad};
ghost use Rattle.service.specs.Cycle.{LeadsOn};

use crate::link_pace::Purpose;
use crate::service_state::Service;
use crate::wish::Wish;
use modbus_frame::Request;
use register_map::Map;
use service_parts::{Aim, Asked, first_register, words_of};

impl Service {
    /// Begins requests on all connections that are free.
    pub(crate) fn ask_all(&mut self)
        ensures rest { Stays self.old self.new }
        ensures lines { LinksGo self.old self.new }
        ensures goes { LeadsOn self.old.cycle self.new.cycle }
        ensures held { HasNoMore self.old.held self.new.held }
        ensures together { GoTogether self.old self.new }
        ensures stands { WritesHad self.old.held self.old.side self.new.side }
    {
        for link in 0..self.lines.count() {
            self.ask(link);
        }
    }

    /// Begins requests on a connection until one is under way, or none is left to begin.
    #[tactic(auto, using(crate::proofs::Saying::right_noted))]
    fn ask(&mut self, link: usize)
        ensures rest { Stays self.old self.new }
        ensures lines { LinksGo self.old self.new }
        ensures goes { LeadsOn self.old.cycle self.new.cycle }
        ensures held { HasNoMore self.old.held self.new.held }
        ensures together { GoTogether self.old self.new }
        ensures stands { WritesHad self.old.held self.old.side self.new.side }
    {
        for _ in 0..self.cycle.devices().saturating_add(64) {
            if !self.may_ask(link) {
                return;
            }
            if !self.ask_next(link) {
                let until = self.asked_again_at(link);
                self.lines.rest_until(link, until);
                return;
            }
        }
    }

    /// Asks what comes next over a connection; whether there is something.
    fn ask_next(&mut self, link: usize) -> bool
        ensures rest { Stays self.old self.new }
        ensures lines { LinksGo self.old self.new }
        ensures goes { LeadsOn self.old.cycle self.new.cycle }
        ensures held { HasNoMore self.old.held self.new.held }
        ensures together { GoTogether self.old self.new }
        ensures stands { WritesHad self.old.held self.old.side self.new.side }
    {
        if self.ask_before_reads(link) {
            return true;
        }
        self.ask_for(link, Purpose::Read) || self.ask_in_spare_time(link)
    }

    /// The same of what is asked in the time that reads leave: searches, then devices that didn't answer.
    fn ask_in_spare_time(&mut self, link: usize) -> bool
        ensures rest { Stays self.old self.new }
        ensures lines { LinksGo self.old self.new }
        ensures goes { LeadsOn self.old.cycle self.new.cycle }
        ensures held { HasNoMore self.old.held self.new.held }
        ensures together { GoTogether self.old self.new }
        ensures stands { WritesHad self.old.held self.old.side self.new.side }
    {
        self.ask_for(link, Purpose::Search) || self.ask_for(link, Purpose::Probe)
    }

    /// The same of what is asked before reads: after a request without an answer the device that answered last, since it tells
    /// whether the others are still reached; then writes, and searches that come first.
    fn ask_before_reads(&mut self, link: usize) -> bool
        ensures rest { Stays self.old self.new }
        ensures lines { LinksGo self.old self.new }
        ensures goes { LeadsOn self.old.cycle self.new.cycle }
        ensures held { HasNoMore self.old.held self.new.held }
        ensures together { GoTogether self.old self.new }
        ensures stands { WritesHad self.old.held self.old.side self.new.side }
    {
        if self.ask_sign(link) {
            return true;
        }
        self.ask_for(link, Purpose::Write) || self.ask_search_first(link)
    }

    /// The same of searches that come before reads: of a device that is in doubt, or one that goes on.
    fn ask_search_first(&mut self, link: usize) -> bool
        ensures rest { Stays self.old self.new }
        ensures lines { LinksGo self.old self.new }
        ensures goes { LeadsOn self.old.cycle self.new.cycle }
        ensures held { HasNoMore self.old.held self.new.held }
        ensures together { GoTogether self.old self.new }
        ensures stands { WritesHad self.old.held self.old.side self.new.side }
    {
        self.ask_for(link, Purpose::Doubt) || self.ask_for(link, Purpose::GoOn)
    }

    /// Asks the device that answered last over a connection, where the last request had no answer; whether it does.
    fn ask_sign(&mut self, link: usize) -> bool
        ensures rest { Stays self.old self.new }
        ensures lines { LinksGo self.old self.new }
        ensures goes { LeadsOn self.old.cycle self.new.cycle }
        ensures held { HasNoMore self.old.held self.new.held }
        ensures together { GoTogether self.old self.new }
        ensures stands { WritesHad self.old.held self.old.side self.new.side }
    {
        let Some(device) = self.side.sign_of(link) else {
            return false;
        };
        if !self.is_served(link, device) {
            return self.side.answers(device) && self.ask_device(link, device, Purpose::Sign);
        }
        self.ask_served(link, device)
    }

    /// Asks a device that is read and written for what comes next, or for the first registers of its map.
    fn ask_served(&mut self, link: usize, device: usize) -> bool
        ensures rest { Stays self.old self.new }
        ensures lines { LinksGo self.old self.new }
        ensures goes { LeadsOn self.old.cycle self.new.cycle }
        ensures held { HasNoMore self.old.held self.new.held }
        ensures together { GoTogether self.old self.new }
        ensures stands { WritesHad self.old.held self.old.side self.new.side }
    {
        if self.ask_device(link, device, Purpose::Write) {
            return true;
        }
        self.ask_device(link, device, Purpose::Read) || self.ask_again(link, device)
    }

    /// Asks a device for the first registers of its map, whatever is known of it.
    fn ask_again(&mut self, link: usize, device: usize) -> bool
        ensures rest { Stays self.old self.new }
        ensures lines { LinksGo self.old self.new }
        ensures goes { LeadsOn self.old.cycle self.new.cycle }
        ensures held { HasNoMore self.old.held self.new.held }
        ensures together { GoTogether self.old self.new }
        ensures stands { Goes self.old.side self.new.side }
    {
        match self.wish_anew(link, device) {
            Some(wish) => {
                self.begin(link, device, wish);
                true
            }
            None => false,
        }
    }

    /// Whether a connection is free, and may have something to ask.
    fn may_ask(&self, link: usize) -> bool {
        self.lines.is_stirred(link, self.side.now) && self.lines.is_free(link)
    }

    /// When something may be asked again over a connection.
    fn asked_again_at(&self, link: usize) -> u64 {
        let mut until = self.side.asked_over(link);
        for i in 0..self.lines.devices_on(link) {
            if let Some(device) = self.lines.device_at(link, i) {
                until = self.side.asked_again(device, until);
            }
        }
        until
    }

    /// Asks the device whose turn it is, or the next one that there is something to ask of; whether there is one.
    fn ask_for(&mut self, link: usize, purpose: Purpose) -> bool
        ensures rest { Stays self.old self.new }
        ensures lines { LinksGo self.old self.new }
        ensures goes { LeadsOn self.old.cycle self.new.cycle }
        ensures held { HasNoMore self.old.held self.new.held }
        ensures together { GoTogether self.old self.new }
        ensures stands { WritesHad self.old.held self.old.side self.new.side }
    {
        let turn = self.side.turn(link, purpose);
        self.ask_from(link, purpose, turn)
    }

    /// The same from the place on that has the turn, around.
    fn ask_from(&mut self, link: usize, purpose: Purpose, turn: usize) -> bool
        requires turn { (pace : PaceValue) → slice_get self.old.side.links.items link ≡ Some pace → turn ≡ turn_of purpose pace }
        ensures rest { Stays self.old self.new }
        ensures lines { LinksGo self.old self.new }
        ensures goes { LeadsOn self.old.cycle self.new.cycle }
        ensures held { HasNoMore self.old.held self.new.held }
        ensures together { GoTogether self.old self.new }
        ensures stands { WritesHad self.old.held self.old.side self.new.side }
    {
        self.ask_between(link, purpose, turn, usize::MAX)
            || self.ask_between(link, purpose, 0, turn)
    }

    /// The same among the devices at these places of the connection.
    fn ask_between(&mut self, link: usize, purpose: Purpose, first: usize, end: usize) -> bool
        ensures rest { Stays self.old self.new }
        ensures lines { LinksGo self.old self.new }
        ensures goes { LeadsOn self.old.cycle self.new.cycle }
        ensures held { HasNoMore self.old.held self.new.held }
        ensures together { GoTogether self.old self.new }
        ensures stands { WritesHad self.old.held self.old.side self.new.side }
    {
        for i in first..end.min(self.lines.devices_on(link)) {
            if self.ask_at(link, purpose, i) {
                return true;
            }
        }
        false
    }

    /// Asks the device at this place of a connection; whether there is something.
    fn ask_at(&mut self, link: usize, purpose: Purpose, i: usize) -> bool
        ensures rest { Stays self.old self.new }
        ensures lines { LinksGo self.old self.new }
        ensures goes { LeadsOn self.old.cycle self.new.cycle }
        ensures held { HasNoMore self.old.held self.new.held }
        ensures together { GoTogether self.old self.new }
        ensures stands { WritesHad self.old.held self.old.side self.new.side }
    {
        match self.lines.device_at(link, i) {
            Some(device) => self.ask_in_turn(link, device, purpose, i),
            None => false,
        }
    }

    /// Asks the device at this place; where there is something, it or the next one has the turn then.
    fn ask_in_turn(&mut self, link: usize, device: usize, purpose: Purpose, i: usize) -> bool
        ensures rest { Stays self.old self.new }
        ensures lines { LinksGo self.old self.new }
        ensures goes { LeadsOn self.old.cycle self.new.cycle }
        ensures held { HasNoMore self.old.held self.new.held }
        ensures together { GoTogether self.old self.new }
        ensures stands { WritesHad self.old.held self.old.side self.new.side }
    {
        if !self.ask_device(link, device, purpose) {
            return false;
        }
        let place = self.side.place_after(device, purpose, i);
        self.side.turned(link, purpose, place);
        true
    }

    fn ask_device(&mut self, link: usize, device: usize, purpose: Purpose) -> bool
        ensures rest { Stays self.old self.new }
        ensures lines { LinksGo self.old self.new }
        ensures goes { LeadsOn self.old.cycle self.new.cycle }
        ensures held { HasNoMore self.old.held self.new.held }
        ensures together { GoTogether self.old self.new }
        ensures stands { WritesHad self.old.held self.old.side self.new.side }
    {
        match self.wish_of(link, device, purpose) {
            Some(wish) => {
                self.begin(link, device, wish);
                true
            }
            None => false,
        }
    }

    #[tactic(auto, using(service_parts::proofs::Frames::not_begun, crate::proofs::Timing::timed, crate::proofs::Saying::right_held))]
    fn begin(&mut self, link: usize, device: usize, wish: Wish)
        requires quantity { HasQuantity wish.request }
        requires asked { MayGoOver self.old.cycle.core.value self.old.lines.links.numbers.items self.old.lines.found_on.items link wish.aim device wish.request }
        requires paired { MayBegin link self.old wish.aim }
        ensures held { (number : ℕ) → slice_get self.old.lines.links.numbers.items link ≡ Some number → self.new.held.writes.items ≡ had_beside wish.aim self.old.held.writes.items }
        ensures rest { Stays self.old self.new }
        ensures lines { BeginsOf wish.aim self.old self.new }
        ensures goes { LeadsOn self.old.cycle self.new.cycle }
        ensures no_more { HasNoMore self.old.held self.new.held }
        ensures together { GoTogether self.old self.new }
        ensures stands { Goes self.old.side self.new.side }
    {
        let Some(number) = self.lines.number_of(link) else {
            return;
        };
        let wait = self.wait_of(link, device, wish.aim);
        let asked = Asked {
            device,
            aim: wish.aim,
            address: first_register(&wish.request),
            words: words_of(&wish.request),
            number,
            since: self.side.now,
            until: self.side.now.saturating_add(wait),
        };
        self.held.begin(wish.aim);
        self.start(link, asked, wish.request);
        self.side.count_request(device);
        if wish.aim == Aim::Map {
            self.side.spare(link, device, wait);
        }
    }

    /// Begins a request, where one may begin. Bytes that came before it are looked at with those that come next.
    fn start(&mut self, link: usize, asked: Asked, request: Request)
        requires quantity { HasQuantity request }
        requires number { slice_get self.old.lines.links.numbers.items link ≡ Some asked.number }
        requires timed { IsTimed self.old.side.now self.old.side.limits asked }
        requires address { asked.address ≡ address_of request }
        requires words { asked.words ≡ words_of request }
        requires asked { MayGoOver self.old.cycle.core.value self.old.lines.links.numbers.items self.old.lines.found_on.items link asked.aim asked.device request }
        ensures held { self.new.held ≡ self.old.held }
        ensures rest { Stays self.old self.new }
        ensures lines { BeginsOf asked.aim self.old self.new }
        ensures goes { LeadsOn self.old.cycle self.new.cycle }
        ensures no_more { HasNoMore self.old.held self.new.held }
        ensures together { BeginsWith link asked.aim self.old self.new }
        ensures stands { Goes self.old.side self.new.side }
    {
        self.lines.begin(link, asked, request);
    }
}
