//! How the devices of a link are asked: whose turn it is, how long an answer is waited for, and what there is time for.
ghost use Rattle.std.specs.Prelude.{◌≡◌, ◌≤◌, Some, set, slice_get};
ghost use Rattle.service.specs.declared.link_pace.LinkPace.{LinkPace as PaceValue};
ghost use Rattle.service_parts.specs.Overdue.{least_wait};
ghost use Rattle.service.specs.Turns.{is_slow, place_after, reply_at, turn_of, turned_to};
ghost use Rattle.service.specs.Told.{Goes};
ghost use Rattle.service.specs.Timing.{KeepsTime};

use crate::device_side::DeviceSide;
use crate::link_pace::{LinkPace, Purpose};
use service_parts::sooner;

impl DeviceSide {
    /// When a device may be asked again, where that is yet to come and before the given time; else this time.
    pub(crate) fn asked_again(&self, device: usize, until: u64) -> u64 {
        match self.devices.get(device) {
            Some(found) => sooner(until, found.asked_again_at(), self.now),
            None => until,
        }
    }

    /// When something else may be asked over a link, at the latest.
    pub(crate) fn asked_over(&self, link: usize) -> u64 {
        let until = sooner(self.next_scan, self.reading_time(), self.now);
        sooner(until, self.pace(link).spare_from, self.now)
    }

    fn pace(&self, link: usize) -> LinkPace
        ensures { (pace : PaceValue) → slice_get self.entry.now.links.items link ≡ Some pace → result ≡ pace }
    {
        match self.links.get(link) {
            Some(pace) => *pace,
            None => LinkPace::new(),
        }
    }

    /// Whether a request that may take so long can begin over a link: it takes nothing of what the scans need, or none did so
    /// lately.
    pub(crate) fn may_spare(&self, link: usize, wait: u64) -> bool {
        self.is_spare(wait.max(self.pace(link).cost)) || self.now >= self.pace(link).spare_from
    }

    /// The same for one that didn't answer last: else it is asked once in half a minute.
    pub(crate) fn may_probe(&self, link: usize, device: usize, wait: u64) -> bool {
        if self.is_spare(wait.max(self.pace(link).cost)) {
            return true;
        }
        let is_long = wait >= self.longest_wait() && self.may_wait_long(link);
        is_long || self.now >= self.pace(link).spare_from && self.is_long_missed(device)
    }

    /// Whether a device that never answered may be waited for as long as a period: none was for half a minute.
    fn may_wait_long(&self, link: usize) -> bool {
        let pace = self.pace(link);
        self.now >= pace.spare_from && self.now >= pace.long_from
    }

    /// A period, or as long as an answer may take where that is less.
    fn longest_wait(&self) -> u64 {
        self.limits.period.min(self.limits.timeout)
    }

    fn is_long_missed(&self, device: usize) -> bool {
        match self.devices.get(device) {
            Some(found) => found.is_long_missed(self.now),
            None => false,
        }
    }

    /// Whether a device answered all requests but the last one.
    pub(crate) fn is_just_missed(&self, device: usize) -> bool {
        match self.devices.get(device) {
            Some(found) => found.is_just_missed(),
            None => false,
        }
    }

    fn is_spare(&self, wait: u64) -> bool {
        self.now.saturating_add(wait) <= self.spare_until()
    }

    /// Whether the last request over a link had no answer.
    pub(crate) fn is_held_up(&self, link: usize) -> bool {
        self.pace(link).misses > 0
    }

    /// The device that answered last over a link, where the last request had no answer.
    pub(crate) fn sign_of(&self, link: usize) -> Option<usize> {
        let pace = self.pace(link);
        if pace.misses == 0 {
            return None;
        }
        pace.heard
    }

    /// Whether a device that wasn't asked yet may be asked over a link before others are read: no request was without an answer for
    /// a period.
    pub(crate) fn may_try(&self, link: usize) -> bool {
        self.now >= self.pace(link).try_from
    }

    /// Whether a device that didn't answer may be asked over a link before others are read: it didn't for long, and a device of the
    /// link was read since another one was asked so.
    pub(crate) fn probes_first(&self, link: usize, device: usize) -> bool {
        let pace = self.pace(link);
        pace.is_owed && self.now >= pace.spare_from && self.is_long_missed(device)
    }

    /// Whether a device's search goes on before others are read: its replies are short, or a device of the link was read since one
    /// went on.
    pub(crate) fn goes_first(&self, link: usize, device: usize) -> bool {
        self.reply_of(device) <= self.limits.period / 8 || self.pace(link).is_owed
    }

    /// The place on a link from which on its devices are asked.
    pub(crate) fn turn(&self, link: usize, purpose: Purpose) -> usize
        ensures { (pace : PaceValue) → slice_get self.entry.now.links.items link ≡ Some pace → result ≡ turn_of purpose pace }
    {
        self.pace(link).turn(purpose)
    }

    /// Whose turn it is after the device at this place: its own, until there is nothing more to ask of it; that of the next one where
    /// its replies take long.
    pub(crate) fn place_after(&self, device: usize, purpose: Purpose, place: usize) -> usize
        ensures { result ≡ place_after (is_slow self.entry.now device) purpose place }
    {
        match purpose {
            Purpose::Write | Purpose::Read if self.is_slow(device) => place.saturating_add(1),
            _ => place,
        }
    }

    /// Whether a device's replies take more than half a period.
    fn is_slow(&self, device: usize) -> bool
        ensures { result ≡ is_slow self.entry.now device }
    {
        self.reply_of(device) > self.limits.period / 2
    }

    /// The device at this place of a link was asked.
    pub(crate) fn turned(&mut self, link: usize, purpose: Purpose, place: usize)
        ensures turned { (pace : PaceValue) → slice_get self.old.links.items link ≡ Some pace → self.new.links.items ≡ set self.old.links.items link (turned_to purpose place pace) }
        ensures time { KeepsTime self.old self.new }
        ensures stands { Goes self.old self.new }
    {
        let pace = self.pace(link).turned(purpose, place);
        self.set_pace(link, pace);
    }

    /// A request to a device begins over a link beside those that the scans need, which may take so long.
    pub(crate) fn spare(&mut self, link: usize, device: usize, wait: u64)
        ensures time { KeepsTime self.old self.new }
        ensures stands { Goes self.old self.new }
    {
        let mut pace = self.pace(link);
        if !self.is_spare(wait) {
            let rest = self.limits.period.saturating_mul(2).max(1000);
            let rest = rest.saturating_add(pace.cost);
            pace.spare_from = self.now.saturating_add(rest);
        }
        if self.is_slow(device) {
            pace.is_owed = false;
        }
        if wait >= self.longest_wait() && !self.is_good(device) {
            pace.long_from = self.now.saturating_add(30_000);
        }
        self.set_pace(link, pace);
    }

    /// A link has a new connection.
    pub(crate) fn begin_link(&mut self, link: usize)
        ensures time { KeepsTime self.old self.new }
        ensures stands { Goes self.old self.new }
    {
        let pace = self.pace(link).begun();
        self.set_pace(link, pace);
    }

    /// A device answered over a link what it was asked at this time.
    pub(crate) fn hear_link(&mut self, link: usize, device: usize, since: u64)
        ensures time { KeepsTime self.old self.new }
        ensures stands { Goes self.old self.new }
    {
        let usual = self.reply_of(device).saturating_mul(2).max(50);
        let pace = self.pace(link).heard_of(device, since, self.now, usual);
        self.set_pace(link, pace);
    }

    /// A request that began at this time had no answer over a link.
    pub(crate) fn miss_link(&mut self, link: usize, since: u64)
        ensures devices { self.new.devices ≡ self.old.devices }
        ensures time { KeepsTime self.old self.new }
        ensures stands { Goes self.old self.new }
    {
        let pace = self.pace(link).missed(since, self.now, self.limits.period);
        self.set_pace(link, pace);
    }

    /// A device of a link is read, or a search over it is over: whether the next search goes on before others are read.
    pub(crate) fn owe(&mut self, link: usize, is_owed: bool)
        ensures time { KeepsTime self.old self.new }
        ensures stands { Goes self.old self.new }
    {
        let mut pace = self.pace(link);
        pace.is_owed = is_owed;
        self.set_pace(link, pace);
    }

    #[tactic(auto, using(crate::proofs::ByNotes::same_goes))]
    fn set_pace(&mut self, link: usize, pace: LinkPace)
        ensures links { (own : PaceValue) → slice_get self.old.links.items link ≡ Some own → self.new.links.items ≡ set self.old.links.items link pace }
        ensures devices { self.new.devices ≡ self.old.devices }
        ensures time { KeepsTime self.old self.new }
        ensures stands { Goes self.old self.new }
    {
        if let Some(own) = self.links.get_mut(link) {
            *own = pace;
        }
    }

    /// How long an answer of a device is waited for on a link where others answer: twice and a half as long as its replies take;
    /// after a request without an answer as long as one may take, since that may hold the link up; and now and then longer, at last
    /// as long as one may take, since the device may have become slower.
    pub(crate) fn short_wait(&self, link: usize, device: usize) -> u64
        ensures least { least_wait self.entry.now.limits ≤ result }
        ensures most { result ≤ self.entry.now.limits.timeout }
    {
        let Some(found) = self.devices.get(device) else {
            return self.limits.timeout;
        };
        let wait = match found.reply() {
            0 => self.first_wait(link),
            reply => self.wait_by(reply),
        };
        let wait = match self.pace(link).misses % 4 {
            0 => wait,
            1 if self.answers(device) => self.limits.timeout,
            _ => wait.saturating_mul(2).max(self.limits.first_wait),
        };
        let wait = match found.misses().saturating_add(1) {
            256 | 1024 => self.limits.timeout,
            asked if asked % 4 == 0 => self.long_wait(link, asked, found.reply() == 0).max(wait),
            _ => wait,
        };
        wait.max(self.limits.least_wait()).min(self.limits.timeout)
    }

    /// Twice and a half as long as replies take.
    fn wait_by(&self, reply: u64) -> u64 {
        self.limits.least_wait().max(reply.saturating_mul(5) / 2)
    }

    /// How long an answer of a device is waited for that never answered: as for the one of its link that answered last,
    /// where that isn't more than a first answer is waited for.
    fn first_wait(&self, link: usize) -> u64 {
        let first = self.limits.first_wait;
        match self.pace(link).heard {
            Some(other) if first < self.limits.timeout => self
                .wait_by(self.reply_of(other))
                .min(first),
            _ => first,
        }
    }

    /// What is left before what the scans need; for a device that never answered once in half a minute a period, or at last as long
    /// as an answer may take.
    fn long_wait(&self, link: usize, asked: u64, is_new: bool) -> u64 {
        if !is_new || !self.may_wait_long(link) {
            return self.spare_until().saturating_sub(self.now);
        }
        if asked % 64 == 0 {
            self.limits.timeout
        } else {
            self.limits.period
        }
    }

    /// Whether a device's last write had no answer.
    pub(crate) fn is_write_missed(&self, device: usize) -> bool {
        match self.devices.get(device) {
            Some(found) => found.is_write_missed(),
            None => false,
        }
    }

    /// How long an answer of a device takes, as far as its replies tell, where it answers.
    pub(crate) fn reply_of(&self, device: usize) -> u64
        ensures { result ≡ reply_at self.entry.now device }
    {
        match self.devices.get(device) {
            Some(found) => found.reply(),
            None => 0,
        }
    }

    /// Whether an answer had all of its time that was asked for at this time.
    pub(crate) fn had_time(&self, since: u64) -> bool {
        self.now >= since.saturating_add(self.limits.timeout)
    }

    /// Whether a device's last request was answered.
    pub(crate) fn is_good(&self, device: usize) -> bool {
        match self.devices.get(device) {
            Some(found) => found.is_good(),
            None => false,
        }
    }

    /// Whether a device answered over its connection, and did so last.
    pub(crate) fn answers(&self, device: usize) -> bool {
        self.is_good(device) && self.is_heard(device)
    }

    fn is_heard(&self, device: usize) -> bool {
        match self.devices.get(device) {
            Some(found) => found.is_heard(),
            None => false,
        }
    }

    /// Whether it is time to read a device: all are read, or it is behind.
    pub(crate) fn is_read_now(&self, device: usize) -> bool {
        match self.devices.get(device) {
            Some(found) => self.now >= self.reading_time() || found.is_behind(),
            None => false,
        }
    }

    /// Whether a device wasn't asked yet over its connection.
    pub(crate) fn is_untried(&self, device: usize) -> bool {
        self.is_good(device) && !self.is_heard(device)
    }

    /// Whether a device may be searched, or asked whether it answers again.
    pub(crate) fn is_sought(&self, device: usize) -> bool {
        match self.devices.get(device) {
            Some(found) => self.now >= found.asked_again_at(),
            None => false,
        }
    }
}
