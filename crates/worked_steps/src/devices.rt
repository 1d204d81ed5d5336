//! The devices of a service: a plant at the other end of each link.
use crate::bytes::{needed, registers_in};
use crate::fault::Shown;
use gateway::Event;
use inverter_sim::Plant;
use modbus_frame::{Exception, Frame, Framer, Pdu, Words, exception_pdu, write_frame};
use service_parts::Station;
use site_model::Want;
use std::alloc::Global;

/// How a device answers.
#[derive(Clone, Copy)]
pub(crate) enum Manner {
    Well,
    /// Not at all.
    Silent,
    /// By bytes that are no frame.
    Garbage,
    /// As it is, and each write by this exception.
    Refusing(Exception),
}

/// The plants by their links, and the manners of the site's devices.
#[derive(Drop)]
pub(crate) struct Devices {
    alloc: Global,
    plants: Vec<Plant>,
    stations: Vec<Station>,
    manners: Vec<Manner>,
}

impl Devices {
    /// Devices that answer well, at these stations.
    pub(crate) fn new(alloc: Global, plants: Vec<Plant>, stations: Vec<Station>) -> Shown<Devices> {
        let mut manners = Vec::new(alloc);
        for _ in 0..stations.len() {
            manners.push(Manner::Well)?;
        }
        Ok(Devices {
            alloc,
            plants,
            stations,
            manners,
        })
    }

    /// A device answers so from now on.
    pub(crate) fn become_so(&mut self, device: usize, manner: Manner) -> Shown<()> {
        *needed(self.manners.get_mut(device))? = manner;
        Ok(())
    }

    /// Another plant is at the end of a link from now on.
    pub(crate) fn replace(&mut self, link: usize, plant: Plant) -> Shown<()> {
        *needed(self.plants.get_mut(link))? = plant;
        Ok(())
    }

    /// What a unit of a link's plant answers.
    pub(crate) fn answer(&mut self, link: usize, unit: u8, pdu: &Pdu) -> Shown<Pdu> {
        Ok(needed(self.plants.get_mut(link))?.serve(unit, pdu))
    }

    /// The bytes that come over a link for a request.
    pub(crate) fn reply(&mut self, link: usize, request: &[u8]) -> Shown<Vec<u8>> {
        let frame = needed(frame_in(request))?;
        match self.manner_at(link, frame.unit) {
            Manner::Refusing(exception) if !is_read(&frame.pdu) => {
                let pdu = exception_pdu(&frame.pdu, exception);
                bytes_of_frame(self.alloc, &Frame { pdu, ..frame })
            }
            Manner::Well | Manner::Refusing(_) => {
                let pdu = self.answer(link, frame.unit, &frame.pdu)?;
                bytes_of_frame(self.alloc, &Frame { pdu, ..frame })
            }
            Manner::Silent => Ok(Vec::new(self.alloc)),
            Manner::Garbage => Ok(Vec::from_slice(self.alloc, &[1, 2, 3, 4, 5, 6, 7, 8])?),
        }
    }

    fn manner_at(&self, link: usize, unit: u8) -> Manner {
        match self.device_at(link, unit) {
            Some(device) => self.manners.get(device).copied().unwrap_or(Manner::Silent),
            None => Manner::Silent,
        }
    }

    /// The number of the device at a unit of a link.
    fn device_at(&self, link: usize, unit: u8) -> Option<usize> {
        for (device, station) in self.stations.iter().enumerate() {
            if station.link == link && station.unit == unit {
                return Some(device);
            }
        }
        None
    }

    /// The block that the reply of a link's device has: the model's number, its length and its other registers.
    pub(crate) fn block_in(&self, link: usize, reply: &[u8]) -> Option<Event> {
        let frame = frame_in(reply)?;
        let [3, _, bytes @ ..] = frame.pdu.bytes() else {
            return None;
        };
        let registers = registers_in(self.alloc, bytes).ok()?;
        let device = self.device_at(link, frame.unit)?;
        let [model, length, ..] = registers.as_slice() else {
            return None;
        };
        if registers.len() != usize::from(*length) + 2 {
            return None;
        }
        let model = *model;
        Some(Event::Block(Want { device, model }, Words::from_slice(&registers)?))
    }
}

/// Whether a request reads registers.
fn is_read(pdu: &Pdu) -> bool {
    matches!(pdu.bytes(), [3, ..])
}

/// The frame that bytes are.
pub(crate) fn frame_in(bytes: &[u8]) -> Option<Frame> {
    Framer::<260>::new().feed(bytes).ok()?.frame
}

/// The bytes of a frame.
pub(crate) fn bytes_of_frame(alloc: Global, frame: &Frame) -> Shown<Vec<u8>> {
    let mut buffer = [0; Frame::MAX_LEN];
    let len = write_frame(frame, &mut buffer);
    Ok(Vec::from_slice(alloc, buffer.split_at(len).0)?)
}
