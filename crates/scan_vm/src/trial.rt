//! A trial of a program by itself, which tests each instruction.
use crate::execution::Execution;
use crate::trap::Trap;
use crate::value::Value;
use point_types::{IlType, Reading};
use scan_code::Image;
use std::alloc::{AllocError, Global};
use std::marker::Model;

/// A scan that ended: how many instructions it did, END among them.
#[derive(Clone, Copy, PartialEq, Eq, Debug)]
pub struct Scan {
    pub steps: u32,
}

/// A machine that runs any image and tests each step (IEC 61131-3 edition 2, 3.2). Variables keep
/// their values between scans; a scan takes no memory.
pub struct Trial {
    image: Image,
    execution: Execution,
    before: Vec<i64>,
}

/// A call for whoever drops one: the proofs of the functions that own one needn't take it apart.
impl Drop for Trial {
    fn drop(self) {
        let Trial {
            image: _,
            execution: _,
            before: _,
        } = self;
    }
}

impl Model for Trial {
    ghost use Rattle.std.specs.Prelude.{◌≡◌, length};
    ghost use Rattle.scan_vm.specs.Trial.{Standing, IsHeld};

    ghost Value = { Standing };

    ghost view = { λ t. record { image = t.image; variables = t.execution.variables; outputs = t.execution.outputs } };

    ghost invariant = { λ t. IsHeld t.image t.execution t.before.items };
}

impl Trial {
    ghost use Rattle.std.specs.Prelude.{◌≡◌, ◌<◌, length, Some, IfOk, IfErr, slice_get};
    ghost use Rattle.scan_vm.specs.Trap.{trap_of};
    ghost use Rattle.scan_vm.specs.Trial.{Ends, Traps, started};

    /// A trial of an image, its variables at their start values, no output set. All memory that its
    /// scans need is taken here.
    pub fn new(alloc: Global, image: Image) -> Result<Trial, AllocError>
        ensures { IfOk result (λ trial. trial ≡ started image) }
    {
        let size = image.code.len();
        prove!(size < 65536);
        let execution = Execution::new(alloc, &image)?;
        let before = Vec::from_slice(alloc, execution.variables())?;
        Ok(Trial {
            image,
            execution,
            before,
        })
    }

    /// Runs the image once, on a reading for each tag, each number in its tag's type; those of
    /// outputs aren't looked at. After a trap the variables are those of before, and no output is set.
    pub fn scan(&mut self, inputs: &[Reading]) -> Result<Scan, Trap>
        ensures image { self.new.image ≡ self.old.image }
        ensures ended { IfOk result (λ scan. Ends self.old inputs.now scan.steps self.new) }
        ensures trapped { IfErr result (λ trap. Traps self.old inputs.now trap.at (trap_of trap.kind) self.new) }
    {
        self.before.copy_from_slice(self.execution.variables());
        self.execution.begin();
        match self.execution.run(&self.image, inputs) {
            Ok(steps) => Ok(Scan { steps }),
            Err(trap) => {
                self.execution.restore(&self.before);
                Err(trap)
            }
        }
    }

    /// The value of a variable; BOOL counts FALSE as 0, TRUE as 1.
    pub fn var(&self, i: usize) -> i64
        requires { i < length self.now.image.vars }
        ensures { slice_get self.now.variables i ≡ Some result }
    {
        self.execution.variables()[i]
    }

    /// What the last scan stored for a tag.
    pub fn output(&self, i: usize) -> Option<i64>
        requires { i < length self.now.image.tags }
        ensures { slice_get self.now.outputs i ≡ Some result }
    {
        self.execution.outputs()[i]
    }

    /// The address of the instruction that stopped the last scan, after a trap.
    pub fn stopped_at(&self) -> usize {
        self.execution.address()
    }

    /// The result at the end of the last scan, or where it stopped.
    pub fn last_result(&self) -> Option<(IlType, i64)> {
        typed(self.execution.result())
    }

    /// The deferred value that the last instruction to take one took, after a trap that isn't Stack; with 1 the one
    /// before it.
    pub fn last_taken(&self, number: usize) -> Option<(IlType, i64)> {
        typed(self.execution.taken(number))
    }

    /// The image that was handed in.
    pub fn image(&self) -> &Image
        ensures { result.now ≡ self.now.image }
    {
        &self.image
    }
}

/// A value as its type and its number.
fn typed(value: Option<Value>) -> Option<(IlType, i64)> {
    let value = value?;
    Some((value.kind(), value.number()))
}
