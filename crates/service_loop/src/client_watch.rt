//! What is told of clients.
use crate::line_writer::LineWriter;
use gateway::{Core, DEPTH};
use modbus_frame::{Exception, Request};
use model_defs::ModelDef;
use note_text::escaped;
use served_rows::{PointSubject, refused_register};
use service::{ClientWrite, Service, WriteOutcome};
use service_texts::{
    Change, KnownSettings, Over, Ration, RefusedNumber, address_of, key_of, lapsed_line,
    number_text, point_text, refused_more_line, refused_number, refused_text, register_text,
    set_line,
};
use site_model::Site;
use std::alloc::{AllocError, Global};
use std::io::Write;
use std::net::{IpAddr, SocketAddr};

/// How many of an address's writes that are refused are told, in `MINUTE`.
const MOST_REFUSED: u64 = 10;

/// How often an address is told to have come, and to have left, in `HOUR`.
const MOST_MOVES: u64 = 1;

/// Milliseconds.
const MINUTE: u64 = 60_000;

const HOUR: u64 = 3_600_000;

/// The most shares that are over in one turn: all that there are.
const MOST_OVER: u32 = 65;

/// Tells what clients do, as often as it is worth a line.
#[derive(Drop)]
pub(crate) struct ClientWatch {
    alloc: Global,
    /// Whether each client that comes or leaves is told.
    tells_moves: bool,
    joined: Ration,
    left: Ration,
    refused: Ration,
    known: KnownSettings,
    /// Who set each tag to what it is set to; None where it isn't set, or was at the start.
    setters: Vec<Option<SocketAddr>>,
    /// How many times the program had run when it was told last what lapsed: nothing lapses beside its scans.
    scans: u64,
}

impl ClientWatch {
    /// Nothing is told yet, and nothing is set.
    pub(crate) fn new(alloc: Global, tells_moves: bool) -> Result<ClientWatch, AllocError> {
        Ok(ClientWatch {
            alloc,
            tells_moves,
            joined: Ration::new(MOST_MOVES, HOUR),
            left: Ration::new(MOST_MOVES, HOUR),
            refused: Ration::new(MOST_REFUSED, MINUTE),
            known: KnownSettings::new(alloc, &[])?,
            setters: Vec::new(alloc),
            scans: 0,
        })
    }

    /// This is set at the start, and needn't be told.
    pub(crate) fn begin(&mut self, settings: &[Option<i64>]) -> Result<(), AllocError> {
        self.known = KnownSettings::new(self.alloc, settings)?;
        self.setters = nobody(self.alloc, settings.len())?;
        Ok(())
    }

    /// Who set a tag to what it is set to; None where it isn't set, or was at the start.
    pub(crate) fn setter(&self, tag: usize) -> Option<SocketAddr> {
        match self.setters.get(tag) {
            Some(setter) => *setter,
            None => None,
        }
    }

    // Notes who set a tag, or that nobody did.
    fn note_setter(&mut self, tag: usize, setter: Option<SocketAddr>) {
        if let Some(noted) = self.setters.get_mut(tag) {
            *noted = setter;
        }
    }

    /// A client came.
    pub(crate) fn tell_joined<W: Write>(
        &mut self,
        address: SocketAddr,
        line_writer: &mut LineWriter<'_, W>,
    ) {
        if self.joined.ask(key_of(address.ip()), line_writer.now()) || self.tells_moves {
            line_writer.tell_client(address, "joined");
        }
    }

    /// A client's connection is closed.
    pub(crate) fn tell_left<W: Write>(
        &mut self,
        address: SocketAddr,
        line_writer: &mut LineWriter<'_, W>,
    ) {
        if self.left.ask(key_of(address.ip()), line_writer.now()) || self.tells_moves {
            line_writer.tell_client(address, "left");
        }
    }

    /// Tells what a client wrote just now, which it isn't told yet: what it set, or that it was refused.
    pub(crate) fn tell_writes<W: Write>(
        &mut self,
        address: SocketAddr,
        service: &Service,
        line_writer: &mut LineWriter<'_, W>,
    ) {
        for write in service.client_writes() {
            match write.outcome {
                WriteOutcome::Done => self.tell_changes(address, service.core(), line_writer),
                WriteOutcome::Refused(exception) => {
                    self.tell_refused(address, write, exception, service.core(), line_writer);
                }
            }
        }
    }

    fn tell_changes<W: Write>(
        &mut self,
        address: SocketAddr,
        core: &Core<DEPTH>,
        line_writer: &mut LineWriter<'_, W>,
    ) {
        for _ in 0..core.settings().len() {
            let Some(change) = self.known.next_change(core.settings()) else {
                return;
            };
            let line = match change.after {
                Some(_) => {
                    self.note_setter(change.tag, Some(address));
                    change_line(self.alloc, core.site(), change, address)
                }
                None => {
                    self.note_setter(change.tag, None);
                    lapsed_line(self.alloc, tag_name(core.site(), change.tag))
                }
            };
            line_writer.tell(line);
        }
    }

    /// Tells which set values lapsed, where the program ran since this was asked last. What else changed was told of the client
    /// that wrote it.
    pub(crate) fn tell_lapsed<W: Write>(
        &mut self,
        service: &Service,
        line_writer: &mut LineWriter<'_, W>,
    ) {
        if service.scans() != self.scans {
            self.scans = service.scans();
            self.tell_each_lapsed(service.core(), line_writer);
        }
    }

    fn tell_each_lapsed<W: Write>(
        &mut self,
        core: &Core<DEPTH>,
        line_writer: &mut LineWriter<'_, W>,
    ) {
        for _ in 0..core.settings().len() {
            let Some(change) = self.known.next_change(core.settings()) else {
                return;
            };
            self.note_setter(change.tag, None);
            let name = tag_name(core.site(), change.tag);
            line_writer.tell(lapsed_line(self.alloc, name));
        }
    }

    fn tell_refused<W: Write>(
        &mut self,
        address: SocketAddr,
        write: &ClientWrite,
        exception: Exception,
        core: &Core<DEPTH>,
        line_writer: &mut LineWriter<'_, W>,
    ) {
        if self.refused.ask(key_of(address.ip()), line_writer.now()) {
            let what = refusal_text(self.alloc, write, exception, core);
            line_writer.tell_what(address, what);
        }
    }

    /// Tells how many writes of an address weren't told, whose minute is over, and begins hours anew.
    pub(crate) fn tell_over<W: Write>(&mut self, line_writer: &mut LineWriter<'_, W>) {
        let now = line_writer.now();
        forget_over(&mut self.joined, now);
        forget_over(&mut self.left, now);
        for _ in 0..MOST_OVER {
            let Some(over) = self.refused.over(now) else {
                return;
            };
            if over.more > 0 {
                line_writer.tell(more_line(self.alloc, over));
            }
        }
    }
}

/// Nobody, so many times.
fn nobody(alloc: Global, count: usize) -> Result<Vec<Option<SocketAddr>>, AllocError> {
    let mut setters = Vec::new(alloc);
    for _ in 0..count {
        setters.push(None)?;
    }
    Ok(setters)
}

fn forget_over(ration: &mut Ration, now: u64) {
    for _ in 0..MOST_OVER {
        if ration.over(now).is_none() {
            return;
        }
    }
}

/// `set NAME NUMBER was NUMBER by ADDR`.
fn change_line(
    alloc: Global,
    site: &Site,
    change: Change,
    address: SocketAddr,
) -> Result<String, AllocError> {
    let by = address.to_string(alloc)?;
    set_line(
        alloc,
        tag_name(site, change.tag),
        change.after,
        change.before,
        by.as_str(),
    )
}

/// `refused FUNCTION ADDRESS EXCEPTION`, and after it what the exception is for, where that is known.
fn refusal_text(
    alloc: Global,
    write: &ClientWrite,
    exception: Exception,
    core: &Core<DEPTH>,
) -> Result<String, AllocError> {
    let mut text = refused_text(alloc, write.function, write.address, exception.0)?;
    if let Some(request) = &write.request {
        let more = reason_text(alloc, request, exception, core)?;
        text.push_str(more.as_str())?;
    }
    Ok(text)
}

/// The register that nobody may write, or else what the write would have set; nothing where it was for another unit.
fn reason_text(
    alloc: Global,
    request: &Request,
    exception: Exception,
    core: &Core<DEPTH>,
) -> Result<String, AllocError> {
    if exception == Exception::GATEWAY_TARGET_FAILED {
        return Ok(String::new(alloc));
    }
    if exception == Exception::ILLEGAL_DATA_ADDRESS {
        return place_text(alloc, request, core.site());
    }
    hit_text(
        alloc,
        core.site(),
        refused_number(core, request, exception.0),
    )
}

/// ` at REGISTER MODEL POINT`, or ` at REGISTER` where no point of a model lies there.
fn place_text(alloc: Global, request: &Request, site: &Site) -> Result<String, AllocError> {
    let Some(refused) = refused_register(alloc, site, request)? else {
        return Ok(String::new(alloc));
    };
    let mut text = register_text(alloc, refused.address)?;
    if let Some(PointSubject::Point { model, point }) = refused.subject {
        if let Some(model) = site.models().get(model) {
            let point = name_text(alloc, model, point)?;
            text.push_str(point.as_str())?;
        }
    }
    Ok(text)
}

/// ` MODEL POINT`, by the number of the point.
fn name_text(alloc: Global, model: &ModelDef, point: usize) -> Result<String, AllocError> {
    match model.points.as_slice().get(point) {
        Some(point) => {
            let name = escaped(alloc, point.name.as_str())?;
            point_text(alloc, model.id, name.as_str())
        }
        None => Ok(String::new(alloc)),
    }
}

/// ` NAME NUMBER LOW..HIGH`, where the write is for a tag.
fn hit_text(alloc: Global, site: &Site, hit: Option<RefusedNumber>) -> Result<String, AllocError> {
    let Some(hit) = hit else {
        return Ok(String::new(alloc));
    };
    match site.tags().get(hit.tag) {
        Some(tag) => number_text(alloc, tag.name.as_str(), hit.number, tag.low, tag.high),
        None => Ok(String::new(alloc)),
    }
}

/// `refused N more from ADDR`, or `from others`.
fn more_line(alloc: Global, over: Over) -> Result<String, AllocError> {
    let from = match over.key {
        Some(key) => address_text(alloc, address_of(key))?,
        None => String::from_str(alloc, "others")?,
    };
    refused_more_line(alloc, over.more, from.as_str())
}

fn address_text(alloc: Global, address: IpAddr) -> Result<String, AllocError> {
    let text = format!(in alloc; "{address}")?;
    Ok(text)
}

fn tag_name(site: &Site, tag: usize) -> &str {
    match site.tags().get(tag) {
        Some(tag) => tag.name.as_str(),
        None => "",
    }
}
