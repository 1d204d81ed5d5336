//! When a wanted block was told last.
ghost use Rattle.std.specs.Prelude.{◌≡◌, ◌↔◌, All, IfOk, IsTrue, false, map, length};
ghost use Rattle.std.specs.List.{position};
ghost use Rattle.service.specs.Rounds.{IsRecent, after_scan, age_for, age_of, is_ready, is_told, is_untold, older, told_now, used};

use site_model::Want;
use std::alloc::{AllocError, Global};

/// The program ran less often than so since a known block was told: one that is older isn't known any more.
pub const MOST_SCANS: u64 = 10;

/// When a wanted block was told last.
#[derive(Clone, Copy)]
pub struct LastTold {
    /// The number of its device.
    pub device: usize,
    /// How often the program ran since.
    pub scans: u64,
    /// Whether it was told since the outputs of its device were planned last.
    pub is_new: bool,
    /// Whether the outputs of its device were planned by it in the last scan.
    pub is_used: bool,
}

impl LastTold {
    /// Whether it is known by a scan that isn't too long ago.
    pub fn is_recent(&self) -> bool
        ensures { IsTrue result ↔ IsRecent self.now }
    {
        self.scans < MOST_SCANS
    }

    /// It is told now: for the next plan of its device, or not.
    pub fn told_now(self, is_new: bool) -> LastTold
        ensures { result ≡ told_now is_new self }
    {
        LastTold {
            device: self.device,
            scans: 0,
            is_new,
            is_used: false,
        }
    }

    /// Whether it isn't the device's, or was told since its outputs were planned last.
    fn is_told(&self, device: usize) -> bool
        ensures { result ≡ is_told device self.now }
    {
        self.device != device || self.is_new
    }

    /// Whether it is the device's, and wasn't told since its outputs were planned last.
    fn is_untold(&self, device: usize) -> bool
        ensures { result ≡ is_untold device self.now }
    {
        !self.is_told(device)
    }

    /// How often the program ran since, where it is the device's; else 0.
    fn age_for(&self, device: usize) -> u64
        ensures { result ≡ age_for device self.now }
    {
        if self.device == device { self.scans } else { 0 }
    }

    /// The program ran once more.
    fn older(self) -> LastTold
        requires { IsRecent self }
        ensures { result ≡ older self }
    {
        LastTold {
            scans: self.scans + 1,
            is_new: self.is_new && !self.is_used,
            ..self
        }
    }
}

/// One for each want, none of which was told yet.
pub fn none_told(alloc: Global, wants: &[Want]) -> Result<Vec<LastTold>, AllocError>
    ensures { IfOk result (λ told. told.items ≡ map (λ want. record { device = want.device; scans = 0; is_new = false; is_used = false }) wants.now) }
{
    wants
        .iter()
        .map(|want| LastTold {
            device: want.device,
            scans: 0,
            is_new: false,
            is_used: false,
        })
        .collect(alloc)
}

/// Whether each wanted block of the device was told since its outputs were planned last.
pub fn is_ready(told: &[LastTold], device: usize) -> bool
    ensures { result ≡ is_ready told.now device }
{
    told.iter().all(|last| last.is_told(device))
}

/// The place of the first wanted block of the device that wasn't told since its outputs were planned last.
pub fn untold(told: &[LastTold], device: usize) -> Option<usize>
    ensures { result ≡ position (is_untold device) told.now }
{
    told.iter().position(|last| last.is_untold(device))
}

/// How often the program ran since the block of the device was told that was told least lately.
pub fn age_of(told: &[LastTold], device: usize) -> u64
    ensures { result ≡ age_of device told.now }
{
    told.iter()
        .fold(0, |most: u64, last| most.max(last.age_for(device)))
}

/// The program ran once more, and used what the devices that are ready told.
#[tactic(auto, using(crate::proofs::LastTold::recent_when_used))]
pub fn age(told: &mut [LastTold])
    requires { All IsRecent told.old }
    ensures aged { told.new ≡ after_scan told.old }
    ensures len { length told.new ≡ length told.old }
{
    use_ready(told);
    grow_older(told);
}

/// Each whose device is ready is used.
fn use_ready(told: &mut [LastTold])
    ensures used { told.new ≡ map (used told.old) told.old }
    ensures len { length told.new ≡ length told.old }
{
    for i in 0..told.len() {
        let is_used = is_ready(told, told[i].device);
        told[i].is_used = is_used;
    }
}

/// The program ran once more.
fn grow_older(told: &mut [LastTold])
    requires { All IsRecent told.old }
    ensures older { told.new ≡ map older told.old }
    ensures len { length told.new ≡ length told.old }
{
    for i in 0..told.len() {
        told[i] = told[i].older();
    }
}
