//! What a trial's instructions load from and store to.
ghost use Rattle.std.specs.Prelude.{◌≡◌, Some, slice_get};
ghost use Rattle.point_types.specs.Value.{is_within};
ghost use Rattle.scan_code.specs.Table.{input_kind, output_kind, read_value};
ghost use Rattle.scan_vm.specs.Outcome.{told};

use super::{Execution, Flow};
use crate::trap::TrapKind;
use crate::value::Value;
use point_types::{IlType, Reading, Var};
use scan_code::Image;

// The instructions that load and store variables, inputs and outputs.
impl Execution {
    ghost use Rattle.std.specs.Prelude.{◌≡◌, ◌<◌, [], Some, None, Result, Ok, Err, MatchResult, slice_set};
    ghost use Rattle.point_types.specs.Value.{WrongType};
    ghost use Rattle.scan_code.specs.declared.op.Op.TheVariants as does;
    ghost use Rattle.scan_code.specs.Machine.{Goes, done, then_goes};
    ghost use Rattle.scan_code.specs.Table.{acts, output_value, storable};
    ghost use Rattle.scan_vm.specs.Step.{IsAfter, answer_of, is_set};

    /// The value of a variable.
    fn variable(&self, v: u16) -> Option<i64>
        ensures { result ≡ slice_get self.now.variables v }
    {
        self.variables.get(v as usize).copied()
    }

    /// LDV
    pub(super) fn load_variable(
        &mut self,
        image: &Image,
        v: u16,
        next: usize,
    ) -> Result<Flow, TrapKind>
        ensures answer { result ≡ answer_of (done image.now [] 0 next (does.LoadVariable v) self.old) }
        ensures state { IsAfter self.old (done image.now [] 0 next (does.LoadVariable v) self.old) self.new }
    {
        let Some(var) = declaration(image, v) else {
            return Err(TrapKind::Code);
        };
        let Some(number) = self.variable(v) else {
            return Err(TrapKind::WrongType);
        };
        Ok(self.advance(next, Value::new(var.kind, number)))
    }

    /// LDT
    pub(super) fn load_input(
        &mut self,
        image: &Image,
        inputs: &[Reading],
        t: u16,
        next: usize,
    ) -> Result<Flow, TrapKind>
        ensures answer { result ≡ answer_of (done image.now inputs.now 0 next (does.LoadInput t) self.old) }
        ensures state { IsAfter self.old (done image.now inputs.now 0 next (does.LoadInput t) self.old) self.new }
    {
        let Some(kind) = input_kind(image, t) else {
            return Err(TrapKind::Code);
        };
        self.advance_by(next, read_value(kind, inputs, t))
    }

    /// LDP: whether the input has a value of its own.
    pub(super) fn load_presence(
        &mut self,
        image: &Image,
        inputs: &[Reading],
        t: u16,
        next: usize,
    ) -> Result<Flow, TrapKind>
        ensures answer { result ≡ answer_of (done image.now inputs.now 0 next (does.LoadPresence t) self.old) }
        ensures state { IsAfter self.old (done image.now inputs.now 0 next (does.LoadPresence t) self.old) self.new }
    {
        if input_kind(image, t).is_none() {
            return Err(TrapKind::Code);
        }
        let is_present = match inputs.get(t as usize) {
            Some(Reading::Value(_)) => true,
            Some(Reading::Default(_, _)) | Some(Reading::Absent(_)) | None => false,
        };
        Ok(self.advance(next, Value::truth(is_present)))
    }

    /// STV
    pub(super) fn store_variable(
        &mut self,
        image: &Image,
        v: u16,
        next: usize,
    ) -> Result<Flow, TrapKind>
        ensures answer { result ≡ answer_of (done image.now [] 0 next (does.StoreVariable v) self.old) }
        ensures state { IsAfter self.old (done image.now [] 0 next (does.StoreVariable v) self.old) self.new }
    {
        let Some(var) = declaration(image, v) else {
            return Err(TrapKind::Code);
        };
        let Some(value) = self.result else {
            return Err(TrapKind::WrongType);
        };
        self.put_variable(&var, v, value, next)
    }

    /// SETV: the variable becomes TRUE where the result is TRUE.
    pub(super) fn set_variable(
        &mut self,
        image: &Image,
        v: u16,
        next: usize,
    ) -> Result<Flow, TrapKind>
        ensures answer { result ≡ answer_of (done image.now [] 0 next (does.SetVariable v) self.old) }
        ensures state { IsAfter self.old (done image.now [] 0 next (does.SetVariable v) self.old) self.new }
    {
        let Some(var) = declaration(image, v) else {
            return Err(TrapKind::Code);
        };
        if self.sets(var.kind)? {
            self.put_variable(&var, v, Value::truth(true), next)
        } else {
            self.address = next;
            Ok(Flow::Next)
        }
    }

    /// RSTV: the variable becomes FALSE where the result is TRUE.
    pub(super) fn reset_variable(
        &mut self,
        image: &Image,
        v: u16,
        next: usize,
    ) -> Result<Flow, TrapKind>
        ensures answer { result ≡ answer_of (done image.now [] 0 next (does.ResetVariable v) self.old) }
        ensures state { IsAfter self.old (done image.now [] 0 next (does.ResetVariable v) self.old) self.new }
    {
        let Some(var) = declaration(image, v) else {
            return Err(TrapKind::Code);
        };
        if self.sets(var.kind)? {
            self.put_variable(&var, v, Value::truth(false), next)
        } else {
            self.address = next;
            Ok(Flow::Next)
        }
    }

    /// STT
    pub(super) fn store_output(
        &mut self,
        image: &Image,
        t: u16,
        next: usize,
    ) -> Result<Flow, TrapKind>
        ensures answer { result ≡ answer_of (done image.now [] 0 next (does.StoreOutput t) self.old) }
        ensures state { IsAfter self.old (done image.now [] 0 next (does.StoreOutput t) self.old) self.new }
    {
        let Some(kind) = output_kind(image, t) else {
            return Err(TrapKind::Code);
        };
        let Some(value) = self.result else {
            return Err(TrapKind::WrongType);
        };
        self.put_output(kind, t, value, next)
    }

    /// SETT: the output becomes TRUE where the result is TRUE.
    pub(super) fn set_output(
        &mut self,
        image: &Image,
        t: u16,
        next: usize,
    ) -> Result<Flow, TrapKind>
        ensures answer { result ≡ answer_of (done image.now [] 0 next (does.SetOutput t) self.old) }
        ensures state { IsAfter self.old (done image.now [] 0 next (does.SetOutput t) self.old) self.new }
    {
        let Some(kind) = output_kind(image, t) else {
            return Err(TrapKind::Code);
        };
        if self.sets(kind)? {
            self.put_output(kind, t, Value::truth(true), next)
        } else {
            self.address = next;
            Ok(Flow::Next)
        }
    }

    /// RSTT: the output becomes FALSE where the result is TRUE.
    pub(super) fn reset_output(
        &mut self,
        image: &Image,
        t: u16,
        next: usize,
    ) -> Result<Flow, TrapKind>
        ensures answer { result ≡ answer_of (done image.now [] 0 next (does.ResetOutput t) self.old) }
        ensures state { IsAfter self.old (done image.now [] 0 next (does.ResetOutput t) self.old) self.new }
    {
        let Some(kind) = output_kind(image, t) else {
            return Err(TrapKind::Code);
        };
        if self.sets(kind)? {
            self.put_output(kind, t, Value::truth(false), next)
        } else {
            self.address = next;
            Ok(Flow::Next)
        }
    }

    /// Stores a value in a variable, where it is of its type and in its range.
    fn put_variable(
        &mut self,
        var: &Var,
        v: u16,
        value: Value,
        next: usize,
    ) -> Result<Flow, TrapKind>
        ensures answer { result ≡ answer_of (then_goes (storable (Some var.now) value) (λ n. Goes (record self.old { address = next; variables = slice_set self.old.variables v n }))) }
        ensures state { IsAfter self.old (then_goes (storable (Some var.now) value) (λ n. Goes (record self.old { address = next; variables = slice_set self.old.variables v n }))) self.new }
    {
        if value.kind() != var.kind {
            return Err(TrapKind::WrongType);
        }
        if !is_in_range(var, value.number()) {
            return Err(TrapKind::StoreRange);
        }
        self.write_variable(v, value.number(), next);
        Ok(Flow::Next)
    }

    /// The next instruction follows, with this number in a variable.
    fn write_variable(&mut self, v: u16, number: i64, next: usize)
        ensures { self.new ≡ record self.old { address = next; variables = slice_set self.old.variables v number } }
    {
        if let Some(place) = self.variables.get_mut(v as usize) {
            *place = number;
        }
        self.address = next;
    }

    /// Stores a value in an output, where it is of its type.
    fn put_output(
        &mut self,
        kind: IlType,
        t: u16,
        value: Value,
        next: usize,
    ) -> Result<Flow, TrapKind>
        ensures answer { result ≡ answer_of (then_goes (output_value (Some kind) value) (λ n. Goes (record self.old { address = next; outputs = slice_set self.old.outputs t (Some n) }))) }
        ensures state { IsAfter self.old (then_goes (output_value (Some kind) value) (λ n. Goes (record self.old { address = next; outputs = slice_set self.old.outputs t (Some n) }))) self.new }
    {
        if value.kind() != kind {
            return Err(TrapKind::WrongType);
        }
        self.write_output(t, value.number(), next);
        Ok(Flow::Next)
    }

    /// The next instruction follows, with this number in an output.
    fn write_output(&mut self, t: u16, number: i64, next: usize)
        ensures { self.new ≡ record self.old { address = next; outputs = slice_set self.old.outputs t (Some number) } }
    {
        if let Some(place) = self.outputs.get_mut(t as usize) {
            *place = Some(number);
        }
        self.address = next;
    }

    /// Whether S or R acts on a place of this type: where the result is TRUE, both being BOOL.
    fn sets(&self, kind: IlType) -> Result<bool, TrapKind>
        ensures { MatchResult result (λ b. is_set kind self.now.result ≡ Ok b) (λ e. (e ≡ TrapKind.WrongType) × (is_set kind self.now.result ≡ Err WrongType)) }
    {
        let Some(value) = self.result else {
            return Err(TrapKind::WrongType);
        };
        if value.kind() != IlType::Bool || kind != IlType::Bool {
            return Err(TrapKind::WrongType);
        }
        Ok(value.number() == 1)
    }
}

/// The declaration of a variable.
fn declaration(image: &Image, v: u16) -> Option<Var>
    ensures { result ≡ slice_get image.now.vars v }
{
    image.vars.as_slice().get(v as usize).copied()
}

/// What an input gives a program: its reading, as a value of the input's type.
fn read_value(kind: IlType, inputs: &[Reading], t: u16) -> Result<Value, TrapKind>
    ensures { result ≡ told (read_value (Some kind) (slice_get inputs.now t)) }
{
    match inputs.get(t as usize) {
        Some(Reading::Value(n)) | Some(Reading::Default(n, _)) => Ok(Value::new(kind, *n)),
        Some(Reading::Absent(_)) => Err(TrapKind::MissingPoint),
        None => Err(TrapKind::WrongType),
    }
}

/// Whether a number lies in a variable's declared range.
fn is_in_range(var: &Var, n: i64) -> bool
    ensures { result ≡ is_within var.now.low var.now.high n }
{
    var.low <= n && n <= var.high
}

/// The type of an input, where the tag is one.
fn input_kind(image: &Image, t: u16) -> Option<IlType>
    ensures { result ≡ input_kind (slice_get image.now.tags t) }
{
    match image.tags.as_slice().get(t as usize) {
        Some(tag) if !tag.output => Some(tag.kind),
        _ => None,
    }
}

/// The type of an output, where the tag is one.
fn output_kind(image: &Image, t: u16) -> Option<IlType>
    ensures { result ≡ output_kind (slice_get image.now.tags t) }
{
    match image.tags.as_slice().get(t as usize) {
        Some(tag) if tag.output => Some(tag.kind),
        _ => None,
    }
}
