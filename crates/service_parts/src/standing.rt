//! How the connections of links stand.
ghost use Rattle.std.specs.Prelude.{◌≡◌, ◌↔◌, ℕ, IsTrue, Some, slice_get};
ghost use Rattle.service_parts.specs.declared.device_connection.DeviceConnection.{DeviceConnection as LineValue};
ghost use Rattle.service_parts.specs.Frames.{LinesGo, dialled};
ghost use Rattle.service_parts.specs.Requests.{StayRightful};
ghost use Rattle.service_parts.specs.Waking.{IsToDial, IsToHangUp, is_up_at, is_well_at};

use crate::connections::Connections;

impl Connections {
    /// Whether a connection is to be made: it is down, no dial is under way, and its back-off is over.
    pub fn wants_dial(&self, link: usize, now: u64) -> bool
        ensures { (line : LineValue) → slice_get self.now.lines.items link ≡ Some line → IsTrue result ↔ IsToDial now line }
    {
        match self.lines.get(link) {
            Some(line) => line.wants_dial(now),
            None => false,
        }
    }

    /// Whether a connection is to be closed, or its dial to be given up.
    pub fn wants_hang_up(&self, link: usize, now: u64) -> bool
        ensures { (line : LineValue) → slice_get self.now.lines.items link ≡ Some line → IsTrue result ↔ IsToHangUp now line }
    {
        match self.lines.get(link) {
            Some(line) => line.wants_hang_up(now),
            None => false,
        }
    }

    /// Whether a connection is up.
    pub fn is_up(&self, link: usize) -> bool
        ensures { result ≡ is_up_at self.now.lines.items link }
    {
        match self.lines.get(link) {
            Some(line) => line.is_up(),
            None => false,
        }
    }

    /// Whether a connection is to be hung up.
    pub fn is_bad(&self, link: usize) -> bool {
        match self.lines.get(link) {
            Some(line) => line.is_bad(),
            None => false,
        }
    }

    /// Whether a connection is up, and nothing is wrong with it.
    pub fn is_well(&self, link: usize) -> bool
        ensures { result ≡ is_well_at self.now.lines.items link }
    {
        match self.lines.get(link) {
            Some(line) => line.is_well(),
            None => false,
        }
    }

    /// Whether there may be something to ask over a link at this time.
    pub fn is_stirred(&self, link: usize, now: u64) -> bool {
        match self.lines.get(link) {
            Some(line) => line.is_stirred(now),
            None => false,
        }
    }

    /// How many devices a link has.
    pub fn devices_on(&self, link: usize) -> usize {
        match self.lines.get(link) {
            Some(line) => line.devices().len(),
            None => 0,
        }
    }

    /// The number of the device at a place of a link.
    pub fn device_at(&self, link: usize, i: usize) -> Option<usize> {
        self.lines.get(link)?.devices().get(i).copied()
    }

    /// Whether a connection is up, its devices answered over it, and nothing is under way on it.
    pub fn is_idle(&self, link: usize) -> bool {
        match self.lines.get(link) {
            Some(line) => line.is_idle(),
            None => false,
        }
    }
}

impl Connections {
    /// A dial begins on a link that may take until this time; none where its connection is up.
    pub fn dial(&mut self, link: usize, until: u64)
        ensures rightful { StayRightful self.old self.new }
        ensures links { self.new.links ≡ self.old.links }
        ensures found { self.new.found_on ≡ self.old.found_on }
        ensures lines { LinesGo self.old.lines.items self.new.lines.items }
        ensures dials { (line : LineValue) → slice_get self.old.lines.items link ≡ Some line → slice_get self.new.lines.items link ≡ Some (dialled until line) }
        ensures others { (other : ℕ) → (other ≡ link → ⊥) → slice_get self.new.lines.items other ≡ slice_get self.old.lines.items other }
    {
        if let Some(line) = self.lines.get_mut(link) {
            line.dial(until);
        }
    }

    /// A link's connection is to be hung up.
    pub fn spoil(&mut self, link: usize)
        ensures rightful { StayRightful self.old self.new }
        ensures links { self.new.links ≡ self.old.links }
        ensures found { self.new.found_on ≡ self.old.found_on }
        ensures lines { LinesGo self.old.lines.items self.new.lines.items }
    {
        if let Some(line) = self.lines.get_mut(link) {
            line.spoil();
        }
    }

    /// Something happened: there may be something to ask over a link.
    fn stir(&mut self, link: usize)
        ensures rightful { StayRightful self.old self.new }
        ensures links { self.new.links ≡ self.old.links }
        ensures found { self.new.found_on ≡ self.old.found_on }
        ensures lines { LinesGo self.old.lines.items self.new.lines.items }
    {
        if let Some(line) = self.lines.get_mut(link) {
            line.stir();
        }
    }

    /// There is nothing to ask over a link before this time, unless something happens.
    pub fn rest_until(&mut self, link: usize, until: u64)
        ensures rightful { StayRightful self.old self.new }
        ensures links { self.new.links ≡ self.old.links }
        ensures found { self.new.found_on ≡ self.old.found_on }
        ensures lines { LinesGo self.old.lines.items self.new.lines.items }
    {
        if let Some(line) = self.lines.get_mut(link) {
            line.rest_until(until);
        }
    }

    /// A device on a link didn't answer.
    pub fn missed(&mut self, link: usize)
        ensures rightful { StayRightful self.old self.new }
        ensures links { self.new.links ≡ self.old.links }
        ensures found { self.new.found_on ≡ self.old.found_on }
        ensures lines { LinesGo self.old.lines.items self.new.lines.items }
        ensures others { (other : ℕ) → (other ≡ link → ⊥) → slice_get self.new.lines.items other ≡ slice_get self.old.lines.items other }
    {
        if let Some(line) = self.lines.get_mut(link) {
            line.missed();
        }
    }

    /// There may be something to ask over each link.
    pub fn stir_all(&mut self)
        ensures rightful { StayRightful self.old self.new }
        ensures links { self.new.links ≡ self.old.links }
        ensures found { self.new.found_on ≡ self.old.found_on }
        ensures lines { LinesGo self.old.lines.items self.new.lines.items }
    {
        for link in 0..self.lines.len() {
            self.stir(link);
        }
    }
}
