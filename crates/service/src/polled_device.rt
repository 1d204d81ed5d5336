//! What is known of a device, apart from its map.
ghost use Rattle.std.specs.Prelude.{◌≡◌, ◌&&◌, ◌||◌, false, not, true};
ghost use Rattle.service.specs.Counting.{after_reply, scanned_by};
ghost use Rattle.service.specs.Noting.{found_by, heard_by, lost_by, refusing};
ghost use Rattle.service.specs.Refusing.{is_more};

use crate::counts::Counts;
use crate::notice::Loss;
use crate::refusals::{ReadRefusal, Refusals};
use crate::replies::Replies;
use service_parts::Limits;

/// A device: when it may be asked, how it answers, and whether it is lost.
#[derive(Drop)]
pub struct PolledDevice {
    /// Before this time no search begins.
    search_at: u64,
    /// Before this time it isn't asked again, where it didn't answer.
    probe_at: u64,
    /// So many requests in a row had no answer.
    misses: u64,
    /// When the last of these had none.
    missed_at: u64,
    /// How long its replies take.
    replies: Replies,
    /// Whether it is read at once: the last scan passed it over, or it is back.
    is_behind: bool,
    /// So many scans passed since its outputs were planned last.
    scans: u64,
    /// Its outputs are planned each so many scans; 0 where they weren't planned twice yet.
    each: u64,
    /// Whether it answered over the connection that there is.
    is_heard: bool,
    /// Whether its last write had no answer.
    is_write_missed: bool,
    /// Whether its map was found before, and it is still told of.
    is_told: bool,
    /// What it refused.
    refusals: Refusals,
    /// Whether it was told that another device answers in its place.
    is_another_told: bool,
    /// Whether another device answers in its place.
    pub is_another: bool,
    pub is_lost: bool,
    /// Why it was lost last.
    pub last_loss: Option<Loss>,
    pub counts: Counts,
}

impl PolledDevice {
    pub fn new() -> PolledDevice
        ensures { result.is_lost ≡ false }
    {
        PolledDevice {
            search_at: 0,
            probe_at: 0,
            misses: 0,
            missed_at: 0,
            replies: Replies::new(),
            is_behind: false,
            scans: 0,
            each: 0,
            is_heard: false,
            is_write_missed: false,
            is_told: false,
            refusals: Refusals::new(),
            is_another_told: false,
            is_another: false,
            is_lost: false,
            last_loss: None,
            counts: Counts::new(),
        }
    }

    /// Whether its last request was answered.
    pub fn is_good(&self) -> bool {
        self.misses == 0
    }

    pub fn misses(&self) -> u64 {
        self.misses
    }

    /// How long its replies take.
    pub fn replies(&self) -> Replies
        ensures { result ≡ self.now.replies }
    {
        self.replies
    }

    /// The longest of its replies lately, in milliseconds.
    pub fn reply(&self) -> u64
        ensures { result ≡ self.now.replies.lately }
    {
        self.replies.lately
    }

    pub fn is_behind(&self) -> bool {
        self.is_behind
    }

    /// Its outputs are planned each so many scans.
    pub fn each(&self) -> u64
        ensures { result ≡ self.now.each }
    {
        self.each
    }

    /// When it may be searched, or asked again.
    pub fn asked_again_at(&self) -> u64 {
        self.probe_at.max(self.search_at)
    }

    /// From this time on it is searched.
    pub fn seek_from(&mut self, at: u64)
        ensures { self.new ≡ record self.old { search_at = at } }
    {
        self.search_at = at;
    }

    /// It may be asked at once, as one of which nothing is known.
    pub fn begin_anew(&mut self)
        ensures { self.new ≡ record self.old { misses = self.new.misses; probe_at = self.new.probe_at; is_heard = false } }
    {
        self.is_heard = false;
        self.misses = 0;
        self.probe_at = 0;
    }

    /// Its next map is told of.
    pub fn tell_again(&mut self)
        ensures { self.new ≡ record self.old { is_told = false } }
    {
        self.is_told = false;
    }

    /// It didn't answer: it isn't asked for a while.
    pub fn miss(&mut self, now: u64, limits: &Limits)
        ensures { self.new ≡ record self.old { misses = self.new.misses; missed_at = now; probe_at = self.new.probe_at } }
    {
        let rest = match self.misses {
            0 => limits.period.min(3000),
            _ => limits.period.saturating_mul(3).clamp(500, 3000),
        };
        self.misses = self.misses.saturating_add(1);
        self.missed_at = now;
        self.probe_at = now.saturating_add(rest.max(limits.timeout));
    }

    /// Whether it was asked last so long ago that it is asked again, whatever that takes of the scans.
    pub fn is_long_missed(&self, now: u64) -> bool {
        now >= self.missed_at.saturating_add(20_000)
    }

    /// Whether it answered all requests but the last one.
    pub fn is_just_missed(&self) -> bool {
        self.misses == 1 && self.replies.lately > 0
    }

    /// It answered after so many milliseconds.
    pub fn replied(&mut self, after: u64)
        ensures { self.new ≡ record self.old { replies = after_reply after self.old.replies } }
    {
        self.replies = self.replies.after(after);
    }

    pub fn is_heard(&self) -> bool {
        self.is_heard
    }

    /// An answer came over the connection that there is.
    pub fn hear(&mut self)
        ensures { self.new ≡ record self.old { is_heard = true } }
    {
        self.is_heard = true;
    }

    pub fn is_write_missed(&self) -> bool {
        self.is_write_missed
    }

    /// A write to it had an answer, or none.
    pub fn note_write(&mut self, is_answered: bool)
        ensures { self.new ≡ record self.old { is_write_missed = not is_answered } }
    {
        self.is_write_missed = !is_answered;
    }

    /// A scan plans its outputs, or passes it over.
    pub fn scanned(&mut self, is_planned: bool)
        ensures { self.new ≡ scanned_by is_planned self.old }
    {
        self.is_behind = !is_planned;
        self.scans = self.scans.saturating_add(1);
        if is_planned {
            self.each = self.scans;
            self.scans = 0;
        }
    }

    /// It refused to read registers; whether that is to be told.
    pub fn refuse(&mut self, refusal: ReadRefusal) -> bool
        ensures refused { self.new ≡ refusing refusal self.old }
        ensures told { result ≡ is_more refusal self.old.refusals }
    {
        self.refusals.add(refusal)
    }

    /// What it refused to be read.
    pub fn refusals(&self) -> &[ReadRefusal]
        ensures { result.now ≡ self.now.refusals }
    {
        self.refusals.known()
    }

    /// It is lost; whether it wasn't before.
    pub fn lose(&mut self, loss: Loss) -> bool
        ensures lost { self.new ≡ lost_by loss self.old }
        ensures told { result ≡ not self.old.is_lost }
    {
        self.counts.lose(loss);
        self.last_loss = Some(loss);
        let was_lost = self.is_lost;
        self.is_lost = true;
        !was_lost
    }

    /// It answered, one that has a map or not; whether it was lost and is back.
    pub fn heard(&mut self, is_mapped: bool) -> bool
        ensures heard { self.new ≡ heard_by is_mapped self.old }
        ensures back { result ≡ (self.old.is_lost && is_mapped) }
    {
        self.misses = 0;
        let is_back = self.is_lost && is_mapped;
        self.is_behind = self.is_behind || is_back;
        self.is_lost = self.is_lost && !is_mapped;
        is_back
    }

    /// Its map is found; whether that is to be told: it was lost, or nothing was told of it yet.
    pub fn found(&mut self) -> bool
        ensures found { self.new ≡ found_by self.old }
        ensures told { result ≡ (self.old.is_lost || not self.old.is_told) }
    {
        let is_new = self.is_lost || !self.is_told;
        self.is_lost = false;
        self.is_behind = true;
        self.is_told = true;
        self.is_another = false;
        self.is_another_told = false;
        is_new
    }

    /// What answers in its place is another device; whether that is to be told. Its next map is told of.
    pub fn be_another(&mut self) -> bool
        ensures another { self.new ≡ record self.old { is_another = true; is_another_told = true; is_told = false } }
        ensures told { result ≡ not self.old.is_another_told }
    {
        let is_new = !self.is_another_told;
        self.is_another = true;
        self.is_another_told = true;
        self.is_told = false;
        is_new
    }

    /// What answers says something else of itself than before: where it is another device that is told.
    pub fn say_anew(&mut self)
        ensures { self.new ≡ record self.old { is_another_told = false } }
    {
        self.is_another_told = false;
    }
}
