//! Links in memory: to a plant, and one that fails.
use commands::plant_of;
use file_keys::TomlFile;
use inverter_sim::{Plant, serve_link};
use modbus_frame::{Down, Frame, Link, MemLink};
use std::alloc::Global;
use std::process::Abort;

/// Two inverters.
pub static PLANT: &str =
    "[[device]]\nunit = 1\nmodels = [1, 103, 123]\nwmax = 5000\navailable = [4000]\n[[device.value]]\nmodel = 103\npoint = \"W_SF\"\nraw = 0\n[[device.value]]\nmodel = 123\npoint = \"WMaxLimPct_SF\"\nraw = -1\n[[device]]\nunit = 2\nmodels = [1, 103, 123]\nwmax = 5000\navailable = [2500]\n[[device.value]]\nmodel = 103\npoint = \"W_SF\"\nraw = 0\n";

/// A link to a plant in memory: each frame that is written is answered at once.
#[derive(Drop)]
pub struct PlantLink {
    alloc: Global,
    plant: Plant,
    replies: Vec<u8>,
    /// How many bytes of the replies were read.
    position: usize,
}

impl PlantLink {
    /// A link to the plant of a file.
    pub fn new(rt: &(impl AllocGlobal + Abort), plant: &str) -> PlantLink {
        let plant = TomlFile::parse(rt.alloc(), plant).expect(rt, "memory");
        let plant = plant_of(rt.alloc(), &plant, &[]).expect(rt, "memory");
        PlantLink {
            alloc: rt.alloc(),
            plant: plant.ok().expect(rt, "a plant"),
            replies: Vec::new(rt.alloc()),
            position: 0,
        }
    }

    /// Has a frame answered.
    fn answer(&mut self, frame: &[u8]) -> Option<()> {
        let mut link = MemLink::new(self.alloc, frame, Frame::MAX_LEN, None).ok()?;
        serve_link(&mut link, &mut self.plant).ok()?;
        self.replies.extend_from_slice(link.sent()).ok()
    }
}

impl Link for PlantLink {
    ghost use Rattle.std.specs.Prelude.{None};
    ghost use Rattle.modbus_frame.specs.Link.{untold};

    ghost calls = { λ _. None };

    ghost failures = { λ _. untold };

    ghost coming = { λ _. None };

    ghost sent = { λ _. None };

    fn read(&mut self, into: &mut [u8]) -> Result<usize, Down> {
        let Some((_, coming)) = self.replies.split_at_checked(self.position) else {
            return Err(Down);
        };
        let n = into.len().min(coming.len());
        into[..n].copy_from_slice(coming.split_at(n).0);
        self.position += n;
        Ok(n)
    }

    fn write(&mut self, from: &[u8]) -> Result<usize, Down> {
        match self.answer(from) {
            Some(()) => Ok(from.len()),
            None => Err(Down),
        }
    }
}

/// A link that fails from one of its calls on.
#[derive(Drop)]
pub struct FailingLink<L: Link> {
    link: L,
    /// How many calls are left before that one.
    left: u32,
}

impl<L: Link> FailingLink<L> {
    /// The link, with so many calls before the first that fails.
    pub fn new(link: L, left: u32) -> FailingLink<L> {
        FailingLink { link, left }
    }

    /// Counts a call.
    fn turn(&mut self) -> Result<(), Down> {
        if self.left == 0 {
            return Err(Down);
        }
        self.left -= 1;
        Ok(())
    }
}

impl<L: Link> Link for FailingLink<L> {
    ghost use Rattle.std.specs.Prelude.{None};
    ghost use Rattle.modbus_frame.specs.Link.{untold};

    ghost calls = { λ _. None };

    ghost failures = { λ _. untold };

    ghost coming = { λ _. None };

    ghost sent = { λ _. None };

    fn read(&mut self, into: &mut [u8]) -> Result<usize, Down> {
        self.turn()?;
        self.link.read(into)
    }

    fn write(&mut self, from: &[u8]) -> Result<usize, Down> {
        self.turn()?;
        self.link.write(from)
    }
}
