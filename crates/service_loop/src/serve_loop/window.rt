//! What a service shows to those who look.
use crate::page_texts::{ScanTexts, site_text};
use crate::program_watch::ProgramWatch;
use crate::serve_loop::ServeLoop;
use crate::serving::{PageWindow, Serving};
use metrics::{Metrics, metrics_text};
use service::Service;
use service_texts::Start;
use std::alloc::AllocError;
use std::io::Write;

impl<W: Write> ServeLoop<'_, W> {
    /// Shows those who look how the service stands.
    pub(super) fn show<P: ProgramWatch>(
        &mut self,
        serving: &Serving<'_>,
        program: &P,
        service: &Service,
    ) {
        let Some(window) = serving.page else {
            return;
        };
        if self.sockets.has_lookers() {
            if self.site_text.is_none() {
                self.make_site_text(&window, program);
            }
            if !self.texts.is_of(service.scans()) {
                self.make_texts(serving, program, service);
            }
        }
        match self.time_shown() {
            Ok(time) => self.answer(window, time),
            Err(AllocError) => self.line_writer.tell(Err(AllocError)),
        }
    }

    // Answers those who look, at this time of day.
    fn answer(&mut self, window: PageWindow<'_>, time: String) {
        let now = self.line_writer.now();
        if let Some(hour) = &mut self.hour {
            hour.turn_to(now);
        }
        let (Some(hour), Some(events)) = (&self.hour, self.line_writer.events()) else {
            return;
        };
        let site = match &self.site_text {
            Some(text) => text.as_str(),
            None => "",
        };
        let told = self.line_writer.told();
        let hour = hour.last_hour(events, told, time.as_str());
        let texts = self.texts.beside(site, hour);
        self.sockets.show(window, texts, now);
    }

    // The time of day, where somebody is to be answered.
    fn time_shown(&self) -> Result<String, AllocError> {
        if self.sockets.has_lookers() {
            self.line_writer.time_of_day()
        } else {
            Ok(String::new(self.alloc))
        }
    }

    // Makes the text of the site and the program; where memory is refused, there is none until the next turn.
    fn make_site_text<P: ProgramWatch>(&mut self, window: &PageWindow<'_>, program: &P) {
        let Ok(listen) = self.sockets.address() else {
            return;
        };
        let listing = match program.taken_listing() {
            Some(listing) => listing,
            None => window.program,
        };
        match site_text(self.alloc, listen, window.site, listing) {
            Ok(text) => self.site_text = Some(text),
            Err(AllocError) => self.line_writer.tell(Err(AllocError)),
        }
    }

    // Makes the texts of the last scan; where memory is refused, those of before stay.
    fn make_texts<P: ProgramWatch>(
        &mut self,
        serving: &Serving<'_>,
        program: &P,
        service: &Service,
    ) {
        let start = match program.taken() {
            Some(start) => start,
            None => serving.start,
        };
        match self.texts_of(start, serving, service) {
            Ok(texts) => self.texts = texts,
            Err(AllocError) => self.line_writer.tell(Err(AllocError)),
        }
    }

    fn texts_of(
        &self,
        start: &Start,
        serving: &Serving<'_>,
        service: &Service,
    ) -> Result<ScanTexts, AllocError> {
        let status = self.status(start, serving, service)?;
        let metrics = Metrics {
            start,
            name: serving.name,
            units: units_of(serving),
            service,
            standing: self.alarm_watch.standing()?,
            began_at: self.line_writer.began_at(),
            scanned_at: self.scanned_at,
            period: serving.period,
            round: self.round.took(),
            late: self.late,
            left_out: self.line_writer.left_out(),
            steps: self.steps.last(),
            clients: self.sockets.clients().count(),
        };
        let metrics = metrics_text(self.alloc, &metrics)?;
        Ok(ScanTexts::new(status, metrics, service.scans()))
    }
}

// Of each tag the unit of its values, as those who look are told.
fn units_of<'a>(serving: &Serving<'a>) -> &'a [String] {
    match serving.page {
        Some(window) => window.units,
        None => &[],
    }
}
