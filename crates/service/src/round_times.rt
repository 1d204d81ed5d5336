//! Scans, by the time.
ghost use Rattle.std.specs.Prelude.{◌≡◌, All, false, map, max, nat_le};
ghost use Rattle.service.specs.Losing.{LostByWait};
ghost use Rattle.service.specs.Counting.{came_to};
ghost use Rattle.service.specs.Told.{Goes, IsReportOf, RunsBy};
ghost use Rattle.service.specs.Cycle.{LeadsOn, stage_of};
ghost use Rattle.service_parts.specs.Overdue.{NoneIsLeft};
ghost use Rattle.service_parts.specs.Places.{closed_if_idle};
ghost use Rattle.service.specs.Timing.{RunsNow, ScansNow, Ticks};
ghost use Rattle.service.specs.Rounds.{IsRecent};
ghost use Rattle.service.specs.Stages.{RunsIf, RunsOnce, Scans};
ghost use Rattle.service.specs.Going.{LinksGo, LinksGoByScan};
ghost use Rattle.service.specs.Having.{HasNoMore, IsToWrite, IsUnplanned, TellsAt, TellsHad, WritesAt, WritesHad};
ghost use Rattle.service.specs.Staying.{Stays};
ghost use Rattle.service.specs.Together.{GoTogether};

use crate::last_scan::LastScan;
use crate::service_state::Service;
use gateway::Report;
use service_parts::close_idle;

impl Service {
    /// The time is this: ends waits, and runs the program once where that is due. It is to be called after each wait.
    #[tactic(auto, using(crate::proofs::Timing::ticks_ran, crate::proofs::Timing::ticks_rested, crate::proofs::Courses::rests_where))]
    pub fn tick(&mut self, now: u64)
        ensures links { self.new.lines.links ≡ self.old.lines.links }
        ensures lines { nat_le self.old.side.next_scan (max self.old.side.now now) ≡ false → LinksGo self.old self.new }
        ensures goes { RunsIf (nat_le self.old.side.next_scan (max self.old.side.now now))
            (λ scanned. TellsAt (LostByWait self.old.lines.links.stations.items self.old.lines.lines.items (max self.old.side.now now)) scanned.core self.old.held self.old.side self.new.side × LinksGoByScan scanned.round.writes self.old self.new × (self.new.side.last_scan ≡ came_to scanned.core.standing.last))
            (max self.old.side.now now) (stage_of self.old.cycle) (stage_of self.new.cycle) }
        ensures ended { NoneIsLeft (max self.old.side.now now) self.old.lines.lines.items self.new.lines.lines.items }
        ensures held { HasNoMore self.old.held self.new.held }
        ensures together { GoTogether self.old self.new }
        ensures places { self.new.places.items ≡ map (closed_if_idle (max self.old.side.now now) self.old.side.limits.idle) self.old.places.items }
        ensures last { nat_le self.old.side.next_scan (max self.old.side.now now) ≡ false → self.new.side.last_scan ≡ self.old.side.last_scan }
        ensures time { Ticks now self.old self.new }
        ensures stands { nat_le self.old.side.next_scan (max self.old.side.now now) ≡ false → TellsHad (LostByWait self.old.lines.links.stations.items self.old.lines.lines.items (max self.old.side.now now)) self.old.held self.old.side self.new.side }
    {
        self.side.turn_to(now);
        close_idle(&mut self.places, self.side.now, self.side.limits.idle);
        self.end_waits();
        if self.side.is_due() {
            self.scan();
        } else {
            self.go_on();
        }
    }

    /// Asks what can be asked, and tells what the last scan came to once all of it is written.
    pub(crate) fn go_on(&mut self)
        ensures rest { Stays self.old self.new }
        ensures lines { LinksGo self.old self.new }
        ensures goes { LeadsOn self.old.cycle self.new.cycle }
        ensures held { HasNoMore self.old.held self.new.held }
        ensures together { GoTogether self.old self.new }
        ensures stands { WritesHad self.old.held self.old.side self.new.side }
    {
        self.ask_all();
        if self.cycle.is_complete() {
            self.finish();
        }
    }

    /// Tells what the last scan came to, where that wasn't told yet.
    #[tactic(auto, using(crate::proofs::Having::writes_unanswered))]
    fn finish(&mut self)
        ensures rest { Stays self.old self.new }
        ensures lines { LinksGo self.old self.new }
        ensures goes { LeadsOn self.old.cycle self.new.cycle }
        ensures held { HasNoMore self.old.held self.new.held }
        ensures together { GoTogether self.old self.new }
        ensures stands { WritesHad self.old.held self.old.side self.new.side }
    {
        if self.side.is_writing {
            let report = self.report();
            self.side.finish(report, self.cycle.round());
        }
    }

    /// What the last scan did.
    fn report(&self) -> Report
        ensures { IsReportOf self.entry.now.side result }
    {
        Report {
            steps: self.side.last_scan.steps,
            writes: self.side.writes,
            refused: self.side.refused,
            lost: self.side.last_scan.lost,
        }
    }

    /// Runs the program, whatever was read, and goes on. A block that was told too many scans ago isn't known any more.
    #[tactic(auto, using(crate::proofs::Saying::right_noted))]
    fn scan(&mut self)
        ensures links { self.new.lines.links ≡ self.old.lines.links }
        ensures runs { RunsOnce (λ scanned. WritesAt scanned.core self.old.held self.old.side self.new.side × LinksGoByScan scanned.round.writes self.old self.new × (self.new.side.last_scan ≡ came_to scanned.core.standing.last)) self.old.side.now (stage_of self.old.cycle) (stage_of self.new.cycle) }
        ensures held { HasNoMore self.old.held self.new.held }
        ensures together { GoTogether self.old self.new }
        ensures places { self.new.places.items ≡ self.old.places.items }
        ensures time { ScansNow self.old self.new }
    {
        self.finish();
        self.side.plan_scan();
        self.note_devices();
        self.expire();
        self.run();
        self.lines.stir_all();
        self.go_on();
    }

    /// Blocks that were told too many scans ago aren't known any more.
    fn expire(&mut self)
        ensures recent { All IsRecent self.new.cycle.round.told }
        ensures rest { Stays self.old self.new }
        ensures lines { LinksGo self.old self.new }
        ensures goes { LeadsOn self.old.cycle self.new.cycle }
        ensures held { HasNoMore self.old.held self.new.held }
        ensures together { GoTogether self.old self.new }
        ensures stands { Goes self.old.side self.new.side }
    {
        self.cycle.expire();
    }

    /// Runs the program.
    fn run(&mut self)
        requires recent { All IsRecent self.old.cycle.round.told }
        ensures lines { self.new.lines ≡ self.old.lines }
        ensures scans { Scans self.old.side.now (stage_of self.old.cycle) (stage_of self.new.cycle) }
        ensures held { HasNoMore self.old.held self.new.held }
        ensures together { GoTogether self.old self.new }
        ensures places { self.new.places.items ≡ self.old.places.items }
        ensures time { RunsNow self.old self.new }
        ensures stands { RunsBy (came_to self.new.cycle.core.value.standing.last) (IsUnplanned self.new.cycle.core.value) (IsToWrite self.new.cycle.core.value) self.old.side self.new.side }
    {
        let now = self.side.now;
        self.cycle.scan(&mut self.side, now);
        self.side.count_scan(LastScan::of(self.cycle.core()));
    }

    /// Which devices the scan plans the outputs of, and which it passes over.
    fn note_devices(&mut self)
        ensures rest { Stays self.old self.new }
        ensures lines { LinksGo self.old self.new }
        ensures goes { LeadsOn self.old.cycle self.new.cycle }
        ensures held { HasNoMore self.old.held self.new.held }
        ensures together { GoTogether self.old self.new }
        ensures stands { Goes self.old.side self.new.side }
    {
        for device in 0..self.cycle.devices() {
            let is_planned = self.cycle.round().is_ready(device);
            self.side.scan_device(device, is_planned);
        }
    }
}
