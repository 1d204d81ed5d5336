//! A service, and the plants at the other ends of its links.
use crate::bytes::{bytes_of, hex_of, needed, number, pdu_of};
use crate::course::Course;
use crate::devices::Devices;
use crate::fault::Shown;
use crate::page::Page;
use crate::service_step::ServiceStep;
use crate::sites::{machine, plant, site};
use crate::texts::Texts;
use file_keys::TomlFile;
use gateway::{Core, DEPTH, Event};
use service::{Identity, Service};
use service_texts::{Addresses, limits, read_places};
use std::alloc::Global;

/// The site of a service, and its program.
const SITE: &str = "site.toml";

const PROGRAM: &str = "program.il";

/// Which device each has to be, in order: the first register of its serial number, or `-` for any.
const SERIALS: &str = "serials.txt";

/// From one scan to the next, and how long a device may take to answer, in milliseconds.
const PERIOD: u64 = 1000;

const TIMEOUT: u64 = 200;

/// A service while it is played.
#[derive(Drop)]
pub(crate) struct ServiceBench {
    alloc: Global,
    service: Service,
    devices: Devices,
    now: u64,
    /// Replies come in pieces of so many bytes.
    piece: usize,
    /// A reply that is kept back.
    late: Vec<u8>,
    /// What came over each link and wasn't used yet.
    waiting: Vec<Vec<u8>>,
    /// What happened to its core, where no device was silent.
    course: Course,
}

impl ServiceBench {
    /// A service of the case's site and program with places for so many clients, over plants of these texts.
    pub(crate) fn new(
        alloc: Global,
        texts: &Texts<'_>,
        clients: usize,
        plants: &[&str],
    ) -> Shown<ServiceBench> {
        let mut opened = Vec::new(alloc);
        let mut waiting = Vec::new(alloc);
        for name in plants {
            opened.push(plant(alloc, texts, *name)?)?;
            waiting.push(Vec::new(alloc))?;
        }
        let file = TomlFile::parse(alloc, texts.get(SITE)?)?;
        let places = needed(read_places(alloc, &file).ok())?;
        let stations = Addresses::of(alloc, places.as_slice())?.stations.into_vec();
        let site = site(alloc, texts, SITE)?;
        let machine = machine(alloc, &site, texts.get(PROGRAM)?)?;
        let limits = limits(PERIOD, TIMEOUT, clients);
        let identities = identities(alloc, texts)?;
        let service = Service::new(
            alloc,
            site,
            machine,
            plants.len(),
            &stations,
            &[],
            &identities,
            limits,
            0,
        );
        Ok(ServiceBench {
            alloc,
            service: needed(service.ok())?,
            devices: Devices::new(alloc, opened, stations)?,
            now: 0,
            piece: 300,
            late: Vec::new(alloc),
            waiting,
            course: Course::new(alloc),
        })
    }

    /// Takes a step, and tells what came of it.
    pub(crate) fn take(
        &mut self,
        texts: &Texts<'_>,
        page: &mut Page,
        step: ServiceStep<'_>,
    ) -> Shown<()> {
        match step {
            ServiceStep::Up(link) => self.come_up(link),
            ServiceStep::Down(link) => self.go_down(link),
            ServiceStep::Pass(until) => self.pass(page, until),
            ServiceStep::Time(now) => self.tick(page, now),
            ServiceStep::AnswerOne => self.answer_one(page).map(|_| ()),
            ServiceStep::Answer => self.answer_all(page),
            ServiceStep::KeepBack(link) => self.keep_back(link),
            ServiceStep::GiveBack(link) => self.give_back(link),
            ServiceStep::CutOff(link, n) => self.cut_off(link, n),
            ServiceStep::Comes(link, bytes) => self.give(link, &bytes_of(self.alloc, bytes)?),
            ServiceStep::Pieces(size) => self.cut_in_pieces(size),
            ServiceStep::Becomes(device, manner) => self.devices.become_so(device, manner),
            ServiceStep::Rebuilt(link, name) => self.rebuild(texts, link, name),
            ServiceStep::Holds(link, unit, pdu) => self.tell_held(page, link, unit, pdu),
            ServiceStep::ClientComes(may_write) => self.client_comes(page, may_write),
            ServiceStep::Says(place, bytes) => self.say(page, place, bytes),
            ServiceStep::Serves(place, bytes) => self.serve(page, place, bytes),
            ServiceStep::AnswerLink(link) => self.answer_link(link),
            ServiceStep::Took(place, n) => self.took(place, n),
            ServiceStep::Leaves(place) => self.leave(place),
            ServiceStep::Restores(tag, number) => self.restore(page, tag, number),
            ServiceStep::Elapses(elapsed) => self.elapse(elapsed),
            ServiceStep::Adopts(program) => self.adopt(texts.get(program)?),
            ServiceStep::Link(link) => self.tell_link(page, link),
            ServiceStep::Device(device) => self.tell_device(page, device),
            ServiceStep::Serial(device) => self.tell_serial(page, device),
            ServiceStep::Output(output) => self.tell_output(page, output),
            ServiceStep::Client(place) => self.tell_client(page, place),
            ServiceStep::Setting(tag) => self.tell_setting(page, tag),
            ServiceStep::Counts => self.tell_counts(page),
        }?;
        self.tell_notes(page)
    }
}

/// What happens on links, and as time passes.
impl ServiceBench {
    /// A link comes up: a new stream.
    fn come_up(&mut self, link: usize) -> Shown<()> {
        needed(self.waiting.get_mut(link))?.clear();
        self.service.link_up(link, self.now);
        Ok(())
    }

    fn go_down(&mut self, link: usize) -> Shown<()> {
        self.service.link_down(link, self.now);
        Ok(())
    }

    fn tick(&mut self, page: &mut Page, now: u64) -> Shown<()> {
        self.now = now;
        let scans = self.service.scans();
        self.service.tick(now);
        if self.service.scans() > scans {
            self.course.add_scan(now)?;
        }
        self.tell_notes(page)
    }

    /// Time passes to this one, from wake to wake. A wake that isn't yet to come is told, and ends it.
    fn pass(&mut self, page: &mut Page, until: u64) -> Shown<()> {
        self.answer_all(page)?;
        for _ in 0..4000 {
            let at = self.service.wakes_at();
            if at <= self.now {
                return page.tell("a wake that is over");
            }
            if at > until {
                break;
            }
            self.tick(page, at)?;
            self.answer_all(page)?;
        }
        self.tick(page, until)?;
        self.answer_all(page)
    }

    /// Exchanges requests and replies, at this time, until there is none.
    fn answer_all(&mut self, page: &mut Page) -> Shown<()> {
        for _ in 0..2000 {
            if !self.answer_one(page)? {
                break;
            }
        }
        Ok(())
    }

    /// One exchange on each link; whether there was one.
    fn answer_one(&mut self, page: &mut Page) -> Shown<bool> {
        let mut was_one = false;
        for link in 0..self.waiting.len() {
            was_one = self.exchange(link)? || was_one;
        }
        self.tell_notes(page)?;
        Ok(was_one)
    }

    /// One exchange on a link, a dial or a hang-up; whether there was one.
    fn exchange(&mut self, link: usize) -> Shown<bool> {
        if self.dial_or_hang_up(link) {
            return Ok(true);
        }
        if self.service.to_link(link).is_empty() {
            self.offer(link)?;
            return Ok(false);
        }
        self.answer_next(link)?;
        Ok(true)
    }

    /// The request that a link has to send is answered, and the block that comes is kept as an event.
    fn answer_next(&mut self, link: usize) -> Shown<()> {
        let reply = self.reply(link)?;
        self.give(link, &reply)?;
        match self.devices.block_in(link, &reply) {
            Some(block) => self.course.add(block),
            None => Ok(()),
        }
    }

    /// A link is dialled or hung up, where it is to be; whether it was.
    fn dial_or_hang_up(&mut self, link: usize) -> bool {
        if self.service.wants_dial(link) {
            self.service.dial_began(link, self.now);
            return true;
        }
        if self.service.wants_hang_up(link) {
            self.service.link_down(link, self.now);
            return true;
        }
        false
    }

    /// Takes what a link has to send; the reply to it.
    fn reply(&mut self, link: usize) -> Shown<Vec<u8>> {
        let request = Vec::from_slice(self.alloc, self.service.to_link(link))?;
        self.service.sent_to_link(link, request.len());
        self.offer(link)?;
        self.devices.reply(link, &request)
    }

    /// Bytes come over a link, after those that wait there.
    fn give(&mut self, link: usize, bytes: &[u8]) -> Shown<()> {
        needed(self.waiting.get_mut(link))?.extend_from_slice(bytes)?;
        self.offer(link)
    }

    /// What came over a link is handed in, piece by piece, as far as it is used.
    fn offer(&mut self, link: usize) -> Shown<()> {
        let waiting = needed(self.waiting.get_mut(link))?;
        let came = std::mem::replace(waiting, Vec::new(self.alloc));
        let mut rest = came.as_slice();
        for _ in 0..2000 {
            let (piece, _) = rest.split_at(self.piece.min(rest.len()));
            let used = self.service.from_link(link, piece, self.now);
            if used == 0 {
                break;
            }
            rest = rest.split_at(used.min(rest.len())).1;
        }
        needed(self.waiting.get_mut(link))?.extend_from_slice(rest)?;
        Ok(())
    }

    /// The requests of a link are answered until there is none.
    fn answer_link(&mut self, link: usize) -> Shown<()> {
        for _ in 0..20 {
            if self.service.to_link(link).is_empty() {
                break;
            }
            self.answer_next(link)?;
        }
        Ok(())
    }

    fn keep_back(&mut self, link: usize) -> Shown<()> {
        self.late = self.reply(link)?;
        Ok(())
    }

    fn give_back(&mut self, link: usize) -> Shown<()> {
        let late = std::mem::replace(&mut self.late, Vec::new(self.alloc));
        self.give(link, &late)
    }

    fn cut_off(&mut self, link: usize, n: usize) -> Shown<()> {
        let reply = self.reply(link)?;
        self.give(link, reply.split_at(n.min(reply.len())).0)
    }

    fn cut_in_pieces(&mut self, size: usize) -> Shown<()> {
        self.piece = size;
        Ok(())
    }

    fn rebuild(&mut self, texts: &Texts<'_>, link: usize, name: &str) -> Shown<()> {
        self.devices.replace(link, plant(self.alloc, texts, name)?)
    }
}

/// What clients do, and what they did before a restart.
impl ServiceBench {
    fn client_comes(&mut self, page: &mut Page, may_write: bool) -> Shown<()> {
        match self.service.client_came(may_write, self.now) {
            Some(place) => page.tell(format_args!("place {place}")),
            None => page.tell("no place"),
        }
    }

    fn say(&mut self, page: &mut Page, place: usize, bytes: &[&str]) -> Shown<()> {
        let bytes = bytes_of(self.alloc, bytes)?;
        let used = self.service.from_client(place, &bytes, self.now);
        page.tell(format_args!("{used} of {} bytes used", bytes.len()))
    }

    fn serve(&mut self, page: &mut Page, place: usize, bytes: &[&str]) -> Shown<()> {
        let request = bytes_of(self.alloc, bytes)?;
        self.service.from_client(place, &request, self.now);
        let reply = Vec::from_slice(self.alloc, self.service.to_client(place))?;
        self.service.sent_to_client(place, reply.len());
        self.course.add_reply(&request, &reply)?;
        page.tell(hex_of(self.alloc, &reply)?)
    }

    fn took(&mut self, place: usize, n: usize) -> Shown<()> {
        self.service.sent_to_client(place, n);
        Ok(())
    }

    fn leave(&mut self, place: usize) -> Shown<()> {
        self.service.client_gone(place);
        Ok(())
    }

    fn restore(&mut self, page: &mut Page, tag: usize, number: i64) -> Shown<()> {
        let is_set = self.service.restore(tag, number);
        page.tell(if is_set { "set" } else { "not set" })
    }

    fn elapse(&mut self, elapsed: u32) -> Shown<()> {
        self.service.pass(elapsed);
        self.course.add(Event::Time(elapsed))
    }

    fn adopt(&mut self, program: &str) -> Shown<()> {
        let put_in = machine(self.alloc, self.service.core().site(), program)?;
        needed(self.service.adopt(self.alloc, put_in).ok())?;
        let kept = machine(self.alloc, self.service.core().site(), program)?;
        self.course.add_program(kept);
        Ok(())
    }
}

/// What is looked at.
impl ServiceBench {
    /// Whether what happened gives the same on a core on which nothing happened yet.
    pub(crate) fn compare(&mut self, page: &mut Page, core: &mut Core<DEPTH>) -> Shown<()> {
        let replies = self.course.replies();
        let scans = self.service.scans();
        page.tell(format_args!("{replies} replies, {scans} scans"))?;
        match self.course.is_that_of(core, self.service.core())? {
            true => page.tell("as the site run of the same events"),
            false => page.tell("otherwise than the site run of the same events"),
        }
    }

    fn tell_notes(&mut self, page: &mut Page) -> Shown<()> {
        for _ in 0..100 {
            let Some(note) = self.service.next_note() else {
                break;
            };
            page.tell(format_args!("{note:?}"))?;
        }
        Ok(())
    }

    fn tell_held(&mut self, page: &mut Page, link: usize, unit: u8, pdu: &[&str]) -> Shown<()> {
        let pdu = pdu_of(self.alloc, pdu)?;
        let answer = self.devices.answer(link, unit, &pdu)?;
        page.tell(hex_of(self.alloc, answer.bytes())?)
    }

    fn tell_link(&mut self, page: &mut Page, link: usize) -> Shown<()> {
        let bytes = hex_of(self.alloc, self.service.to_link(link))?;
        page.tell(format_args!("to be sent: {bytes}"))?;
        if self.service.wants_dial(link) {
            page.tell("to be dialled")?;
        }
        if self.service.wants_hang_up(link) {
            page.tell("to be hung up")?;
        }
        Ok(())
    }

    fn tell_device(&mut self, page: &mut Page, device: usize) -> Shown<()> {
        let status = needed(self.service.device_status(device))?;
        page.tell(format_args!("{status:?}"))
    }

    fn tell_serial(&mut self, page: &mut Page, device: usize) -> Shown<()> {
        let Some(words) = self.service.said(device) else {
            return page.tell("no serial number");
        };
        let serial = words.get(48).copied();
        page.tell(format_args!("serial number {serial:?}"))
    }

    fn tell_output(&mut self, page: &mut Page, output: usize) -> Shown<()> {
        let state = self.service.output_state(output);
        page.tell(format_args!("{state:?}"))
    }

    fn tell_client(&mut self, page: &mut Page, place: usize) -> Shown<()> {
        let bytes = hex_of(self.alloc, self.service.to_client(place))?;
        page.tell(format_args!("to be sent: {bytes}"))?;
        let answered = self.service.client_requests(place);
        page.tell(format_args!("{answered} requests answered"))?;
        if self.service.wants_close(place) {
            page.tell("to be closed")?;
        }
        Ok(())
    }

    fn tell_setting(&mut self, page: &mut Page, tag: usize) -> Shown<()> {
        let setting = self.service.core().settings().get(tag).copied().flatten();
        page.tell(format_args!("{setting:?}"))
    }

    fn tell_counts(&mut self, page: &mut Page) -> Shown<()> {
        let scans = self.service.scans();
        let at = self.service.wakes_at();
        page.tell(format_args!("{scans} scans, wakes at {at}"))
    }
}

/// Which device each has to be.
fn identities(alloc: Global, texts: &Texts<'_>) -> Shown<Vec<Option<Identity>>> {
    let mut identities = Vec::new(alloc);
    if let Ok(text) = texts.get(SERIALS) {
        for word in text.split_ascii_whitespace() {
            identities.push(identity_of(word))?;
        }
    }
    Ok(identities)
}

fn identity_of(word: &str) -> Option<Identity> {
    let mut serial = [0; 16];
    serial[0] = number(word)?;
    Some(Identity {
        maker: None,
        model: None,
        serial: Some(serial),
    })
}
