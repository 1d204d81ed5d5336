//! All that a service has beside what decides.
mod window;

use crate::alarm_watch::AlarmWatch;
use crate::hour_record::{HourRecord, events_of, hour_of};
use crate::keeping::Keeping;
use crate::kept_files::KeptFiles;
use crate::line_writer::LineWriter;
use crate::page_texts::{ScanTexts, page_line};
use crate::program_watch::{Looked, ProgramRefusal, ProgramWatch};
use crate::room::{Room, STANDARD_ERROR, STANDARD_OUTPUT};
use crate::round_time::RoundTime;
use crate::scan_steps::ScanSteps;
use crate::serving::{End, Serving};
use crate::sockets::Sockets;
use crate::state_lock::StateLock;
use crate::status::{ServiceCounts, status_text};
use crate::taken_outputs::TakenOutputs;
use crate::telling::{pace_line, sleep_line, tell, tell_changes, tell_scan, tell_taken};
use crate::wall_clock::seconds_of_day;
use service::{Notice, Service};
use service_texts::{
    Addresses, Start, late_line, listening_line, program_kept_line, program_refused_line,
};
use site_model::Site;
use std::alloc::{AllocError, Global};
use std::io;
use std::io::Write;
use std::net::Net;
use std::process::{Processes, SystemProcess};
use std::random::RandomSource;
use std::rt::Files;
use std::time::{Clock, Duration, Instant};

/// The sockets of a service, its clock, and where it tells.
#[derive(Drop)]
pub(crate) struct ServeLoop<'a, W: Write> {
    alloc: Global,
    /// Where the devices are.
    addresses: &'a Addresses,
    sockets: Sockets,
    line_writer: LineWriter<'a, W>,
    start: Instant,
    /// How many rounds began late.
    late: u64,
    /// How many instructions the program's scans take.
    steps: ScanSteps,
    /// How long its rounds take.
    round: RoundTime,
    /// What devices took last.
    taken: TakenOutputs,
    /// When the last scan was told, in seconds since 1970-01-01T00:00:00Z, where that is known.
    scanned_at: Option<u64>,
    /// What those who look are shown.
    texts: ScanTexts,
    /// And what they are told once of the site and the program that runs; none before somebody looks.
    site_text: Option<String>,
    /// The last hour; None where nobody can look at it.
    hour: Option<HourRecord>,
    /// What is wrong.
    alarm_watch: AlarmWatch,
    /// Whether standard error takes a note on another program; None where there are none.
    notes: Option<Room>,
}

impl<'a, W: Write> ServeLoop<'a, W> {
    /// `is_noting` is so where notes on other programs may come.
    pub(crate) fn new<R: Net + Clock + RandomSource>(
        rt: &R,
        alloc: Global,
        serving: &Serving<'_>,
        addresses: &'a Addresses,
        site: &Site,
        is_noting: bool,
        out: &'a mut W,
    ) -> Result<ServeLoop<'a, W>, End> {
        let sockets = Sockets::new(rt, alloc, serving, addresses.links.as_slice())?;
        match ServeLoop::over(rt, alloc, serving, addresses, site, is_noting, sockets, out) {
            Ok(serve_loop) => Ok(serve_loop),
            Err(fault) => Err(End::by(&fault)),
        }
    }

    fn over<R: Net + Clock>(
        rt: &R,
        alloc: Global,
        serving: &Serving<'_>,
        addresses: &'a Addresses,
        site: &Site,
        is_noting: bool,
        sockets: Sockets,
        out: &'a mut W,
    ) -> io::Result<ServeLoop<'a, W>> {
        let room = Room::new(rt, alloc, STANDARD_OUTPUT)?;
        let events = events_of(alloc, serving)?;
        let seconds = seconds_of_day(rt);
        let line_writer = LineWriter::new(alloc, out, room, serving.times, seconds, events);
        Ok(ServeLoop {
            alloc,
            addresses,
            sockets,
            line_writer,
            start: Instant::now(rt)?,
            late: 0,
            steps: ScanSteps::new(),
            round: RoundTime::new(),
            taken: TakenOutputs::none(alloc),
            scanned_at: None,
            texts: ScanTexts::none(alloc),
            site_text: None,
            hour: hour_of(alloc, serving, site)?,
            alarm_watch: AlarmWatch::new(alloc, addresses.stations.len(), serving.sleeps)?,
            notes: noting(rt, alloc, is_noting),
        })
    }

    /// Tells where clients come to, and those who look.
    pub(crate) fn tell_address(&mut self) {
        if let Ok(address) = self.sockets.address() {
            self.line_writer
                .tell_plain(listening_line(self.alloc, address));
        }
        if let Some(address) = self.sockets.page_address() {
            self.line_writer.tell_plain(page_line(self.alloc, address));
        }
    }

    /// Tells why the program in its file is refused, and which one runs in its place, where one does.
    pub(crate) fn tell_kept(&mut self, serving: &Serving<'_>) -> Result<(), End> {
        let Some(words) = serving.refused else {
            return Ok(());
        };
        let Ok(cause) = String::from_str(self.alloc, words) else {
            return Err(End::OutOfMemory);
        };
        let hash = serving.start.program.as_str();
        self.line_writer
            .tell(program_refused_line(self.alloc, words));
        self.line_writer.tell(program_kept_line(self.alloc, hash));
        self.alarm_watch.refuse(ProgramRefusal::Cause(cause));
        Ok(())
    }

    /// The files that are kept, where what the one of set values says is set, and told where it isn't. The lock is that of
    /// this file.
    pub(crate) fn restore<'k>(
        &mut self,
        keeping: &Keeping<'k, '_>,
        lock: Option<StateLock>,
        service: &mut Service,
    ) -> Result<KeptFiles<'k>, End> {
        match TakenOutputs::new(self.alloc, service.core().site().outs().len()) {
            Ok(taken) => self.taken = taken,
            Err(AllocError) => return Err(End::OutOfMemory),
        }
        match KeptFiles::restored(self.alloc, keeping, lock, service, &mut self.line_writer) {
            Ok(files) => match self.sockets.begin(service.core().settings()) {
                Ok(()) => Ok(files),
                Err(AllocError) => Err(End::OutOfMemory),
            },
            Err(AllocError) => Err(End::OutOfMemory),
        }
    }

    /// One turn; whether the last scan is done.
    pub(crate) fn turn<
        R: Net + Clock + Files + Processes<Started = SystemProcess> + Eprint + AllocGlobal,
        P: ProgramWatch,
    >(
        &mut self,
        rt: &R,
        serving: &Serving<'_>,
        program: &mut P,
        service: &mut Service,
        files: &mut KeptFiles<'_>,
    ) -> Result<bool, End> {
        let now = self.now(rt)?;
        self.line_writer.turn_to(now, seconds_of_day(rt));
        let looked = program.look(rt, now, service);
        if self.tell_look(&*program, looked, files) && self.has_room() {
            program.explain(rt, &*service);
        }
        files.keep_program(rt, program.taken_text(), &mut self.line_writer);
        self.hear(service, now)?;
        service.tick(now);
        self.round.turn(service.scans(), now);
        let taken = self
            .sockets
            .take(rt, serving, service, &mut self.line_writer);
        // what was taken in may set values, and giving out says so
        let kept = files.keep_state(taken, rt, service.core(), &mut self.line_writer);
        self.sockets.give(kept, service, &mut self.line_writer);
        let is_done = self.tell(serving, service, files);
        self.keep_status(rt, serving, &*program, service, files);
        self.show(serving, &*program, service);
        Ok(is_done)
    }

    // Hears devices before waits end: what came while this program itself had no time isn't late.
    fn hear(&mut self, service: &mut Service, now: u64) -> Result<(), End> {
        match self.sockets.hear(service, now) {
            Ok(()) => Ok(()),
            Err(fault) => Err(End::by(&fault)),
        }
    }

    // Whether standard error takes a note without a wait.
    fn has_room(&mut self) -> bool {
        match &mut self.notes {
            Some(room) => room.is_there(),
            None => false,
        }
    }

    // Tells what came of a look whether another program is to run; whether that is to be explained.
    fn tell_look<P: ProgramWatch>(
        &mut self,
        program: &P,
        looked: Looked,
        files: &mut KeptFiles<'_>,
    ) -> bool {
        match looked {
            Looked::Same => false,
            Looked::Settled => {
                self.alarm_watch.settle();
                false
            }
            Looked::Refused(refusal) => {
                self.line_writer
                    .tell(program_refused_line(self.alloc, refusal.words()));
                self.alarm_watch.refuse(refusal);
                true
            }
            Looked::Taken(budget) => {
                self.alarm_watch.settle();
                self.steps = ScanSteps::new();
                self.site_text = None;
                self.texts = ScanTexts::none(self.alloc);
                files.take_program();
                tell_taken(self.alloc, program.taken(), budget, &mut self.line_writer);
                true
            }
        }
    }

    // The milliseconds since the start.
    fn now<R: Clock>(&self, rt: &R) -> Result<u64, End> {
        match self.start.elapsed(rt) {
            Ok(spent) => Ok(milliseconds(spent)),
            Err(fault) => Err(End::by(&fault)),
        }
    }

    // Tells what happened; whether the last scan is done.
    fn tell(
        &mut self,
        serving: &Serving<'_>,
        service: &mut Service,
        files: &mut KeptFiles<'_>,
    ) -> bool {
        for _ in 0..u64::MAX {
            let Some(note) = service.next_note() else {
                return false;
            };
            let is_done = self.tell_note(serving, service, &note);
            if let Notice::Scanned(_) = note {
                files.scanned();
                self.look(service, files);
                self.record(service);
            }
            if is_done {
                return true;
            }
        }
        false
    }

    // Records a scan for those who look.
    fn record(&mut self, service: &Service) {
        let now = self.line_writer.now();
        if let Some(hour) = &mut self.hour {
            hour.scanned(now, self.steps.last(), service.core());
        }
    }

    // Looks what is wrong after a scan, and tells what changed.
    fn look(&mut self, service: &Service, files: &KeptFiles<'_>) {
        let now = self.line_writer.now();
        match self.alarm_watch.look(service, files, now) {
            Ok(changes) => tell_changes(self.alloc, changes, service.core(), &mut self.line_writer),
            Err(AllocError) => self.line_writer.tell(Err(AllocError)),
        }
        self.tell_devices(service.core().site());
    }

    // Tells which devices sleep, and which don't keep up with the program, or do again.
    fn tell_devices(&mut self, site: &Site) {
        for device in 0..site.devices().len() {
            if let Some(slept) = self.alarm_watch.news_of_sleep(device) {
                self.line_writer
                    .tell(sleep_line(self.alloc, site, device, slept));
            }
            if let Some(rounds) = self.alarm_watch.news_of_pace(device) {
                self.line_writer
                    .tell(pace_line(self.alloc, site, device, rounds));
            }
        }
    }

    fn tell_note(&mut self, serving: &Serving<'_>, service: &Service, note: &Notice) -> bool {
        match note {
            Notice::Scanned(report) => {
                let scans = service.scans();
                self.steps.add(report.steps);
                if self.round.end(self.line_writer.now()) {
                    self.taken.note(service);
                }
                self.scanned_at = self.line_writer.seconds();
                if serving.is_verbose {
                    tell_scan(self.alloc, scans, report, &mut self.line_writer);
                }
                serving.is_done(scans)
            }
            Notice::Late(_) => {
                self.late = self.late.saturating_add(1);
                self.alarm_watch.came_late(self.line_writer.now());
                self.line_writer.tell(late_line(self.alloc, self.late));
                false
            }
            _ => {
                tell(self.alloc, note, serving, service, &mut self.line_writer);
                false
            }
        }
    }

    // Says in a file how the service stands, where a scan is over.
    fn keep_status<R: Files, P: ProgramWatch>(
        &mut self,
        rt: &R,
        serving: &Serving<'_>,
        program: &P,
        service: &Service,
        files: &mut KeptFiles<'_>,
    ) {
        if files.wants_status() {
            let text = match program.taken() {
                Some(start) => self.status(start, serving, service),
                None => self.status(serving.start, serving, service),
            };
            files.keep_status(rt, text, &mut self.line_writer);
        }
    }

    // How the service stands, with what is told of the program that runs.
    fn status(
        &self,
        start: &Start,
        serving: &Serving<'_>,
        service: &Service,
    ) -> Result<String, AllocError> {
        status_text(
            self.alloc,
            start,
            &self.line_writer,
            self.counts(),
            serving,
            service,
            self.addresses,
            self.sockets.clients(),
            &self.alarm_watch,
            &self.taken,
        )
    }

    fn counts(&self) -> ServiceCounts {
        ServiceCounts {
            seconds: self.line_writer.now() / 1000,
            late: self.late,
            lines: self.line_writer.told(),
            steps: self.steps,
            round: self.round,
        }
    }

    /// Waits until there is something to do: at the latest when the next look is due, where there is one.
    pub(crate) fn wait<R: Clock>(
        &mut self,
        rt: &R,
        looks_at: Option<u64>,
        service: &Service,
    ) -> Result<(), End> {
        let most = earlier(service.wakes_at(), looks_at).saturating_sub(self.now(rt)?);
        let most = self.sockets.longest_wait(service, most);
        match self.sockets.wait(most) {
            Ok(()) => Ok(()),
            Err(fault) => Err(End::by(&fault)),
        }
    }

    /// Ends the connections to devices, and each process that looks up a name.
    pub(crate) fn end(&mut self) {
        self.sockets.end();
    }
}

// Whether standard error takes notes, where there may be any.
fn noting<R: Net>(rt: &R, alloc: Global, is_noting: bool) -> Option<Room> {
    if !is_noting {
        return None;
    }
    match Room::new(rt, alloc, STANDARD_ERROR) {
        Ok(room) => Some(room),
        Err(_) => None,
    }
}

fn earlier(one: u64, other: Option<u64>) -> u64 {
    match other {
        Some(other) => one.min(other),
        None => one,
    }
}

pub(crate) fn milliseconds(spent: Duration) -> u64 {
    spent
        .as_secs()
        .saturating_mul(1000)
        .saturating_add(u64::from(spent.subsec_millis()))
}
