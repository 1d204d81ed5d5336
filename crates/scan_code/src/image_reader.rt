//! From bytes to an image.
use crate::decoding::{number_from, place_from};
use crate::image::{Image, Tag};
use crate::image_fault::ImageFault;
use crate::image_names::new_name;
use crate::image_rules::{MOST_ENTRIES, is_high, is_low, is_ranged, is_version};
use point_types::{IlType, Items, Name, Var};
use std::alloc::Global;
use std::marker::Model;

/// The bytes of an image that are still to be read; contracts see them.
#[derive(Drop)]
pub(crate) struct Unread<'a> {
    rest: &'a [u8],
}

impl<'a> Model for Unread<'a> {
    ghost use Rattle.std.specs.Prelude.{ℕ, List};

    ghost Value = { List ℕ };

    ghost view = { λ u. u.rest.now };
}

impl<'a> Unread<'a> {
    ghost use Rattle.std.specs.Prelude.{◌≡◌, [], ◌∷◌, ◌≤◌, IsTrue, true, ◌↔◌, Ok, Err, IfOk, MatchResult};
    ghost use Rattle.scan_code.specs.Image.{is_version, most_entries, names_of};
    ghost use Rattle.scan_code.specs.ImageReading.{Takes, TakesOrWantsMemory, byte_at, place_at, number_at, piece_at, behind_mark, version_at, count_at, name_length_at, name_at, type_at, low_at, high_at, var_behind, var_at, direction_at, tag_at, vars_at, tags_at, tables_at, image_at};
    ghost use Rattle.scan_code.specs.ImageSpelling.{mark};

    pub(crate) fn new(bytes: &'a [u8]) -> Unread<'a>
        ensures { result ≡ bytes.now }
    {
        Unread { rest: bytes }
    }

    pub(crate) fn is_empty(&self) -> bool
        ensures { IsTrue result ↔ (self.now ≡ []) }
    {
        self.rest.is_empty()
    }

    /// The image at the beginning of the bytes.
    pub(crate) fn image(&mut self, alloc: Global) -> Result<Image, ImageFault>
        ensures { TakesOrWantsMemory (image_at self.old) result self.new }
    {
        self.mark()?;
        let version = self.version()?;
        let vars = self.count()?;
        let tags = self.count()?;
        let size = self.place()?;
        self.tables(alloc, version, vars, tags, size)
    }

    /// The mark `ILSC`, byte by byte.
    fn mark(&mut self) -> Result<(), ImageFault>
        ensures { Takes (behind_mark mark self.old) result self.new }
    {
        self.marked(b'I')?;
        self.marked(b'L')?;
        self.marked(b'S')?;
        self.marked(b'C')
    }

    fn marked(&mut self, byte: u8) -> Result<(), ImageFault>
        ensures { Takes (behind_mark (byte ∷ []) self.old) result self.new }
    {
        if self.byte()? == byte {
            Ok(())
        } else {
            Err(ImageFault::Mark)
        }
    }

    fn version(&mut self) -> Result<u8, ImageFault>
        ensures taken { Takes (version_at self.old) result self.new }
        ensures known { IfOk result (λ n. is_version n ≡ true) }
    {
        let version = self.byte()?;
        if is_version(version) {
            Ok(version)
        } else {
            Err(ImageFault::Version)
        }
    }

    /// A number of variables or of tags.
    fn count(&mut self) -> Result<u16, ImageFault>
        ensures taken { Takes (count_at self.old) result self.new }
        ensures few { IfOk result (λ n. n ≤ most_entries) }
    {
        let count = self.place()?;
        if count as usize <= MOST_ENTRIES {
            Ok(count)
        } else {
            Err(ImageFault::Field)
        }
    }

    /// The variables, the tags and the code.
    fn tables(
        &mut self,
        alloc: Global,
        version: u8,
        vars: u16,
        tags: u16,
        size: u16,
    ) -> Result<Image, ImageFault>
        requires version { is_version version ≡ true }
        requires vars { vars ≤ most_entries }
        requires tags { tags ≤ most_entries }
        ensures { TakesOrWantsMemory (tables_at version vars tags size self.old) result self.new }
    {
        let vars = self.vars(alloc, vars)?;
        let tags = self.tags(alloc, vars.as_slice(), tags)?;
        let code = Vec::from_slice(alloc, self.piece(size as usize)?)?;
        Ok(Image {
            version,
            vars,
            tags,
            code: Items::from_vec(code),
        })
    }

    fn vars(&mut self, alloc: Global, count: u16) -> Result<Items<Var>, ImageFault>
        ensures { TakesOrWantsMemory (vars_at count [] self.old) result self.new }
    {
        let mut vars = Items::new(alloc);
        let mut missing = count;
        while missing > 0 {
            let var = self.var(vars.as_slice())?;
            vars.push(var)?;
            missing -= 1;
        }
        Ok(vars)
    }

    fn tags(&mut self, alloc: Global, vars: &[Var], count: u16) -> Result<Items<Tag>, ImageFault>
        ensures { TakesOrWantsMemory (tags_at count vars.now [] self.old) result self.new }
    {
        let mut tags = Items::new(alloc);
        let mut missing = count;
        while missing > 0 {
            let tag = self.tag(vars, tags.as_slice())?;
            tags.push(tag)?;
            missing -= 1;
        }
        Ok(tags)
    }

    /// A variable, after these ones.
    fn var(&mut self, before: &[Var]) -> Result<Var, ImageFault>
        ensures { Takes (var_at (names_of before.now []) self.old) result self.new }
    {
        let name = self.name(before, &[])?;
        let kind = self.kind()?;
        self.range(name, kind)
    }

    /// The ends of a variable's range, and its start.
    fn range(&mut self, name: Name, kind: IlType) -> Result<Var, ImageFault>
        ensures { Takes (var_behind name kind self.old) result self.new }
    {
        let low = self.low(kind)?;
        let high = self.high(kind, low)?;
        let start = self.number()?;
        if is_ranged(kind, low, high, start) {
            Ok(Var {
                name,
                kind,
                low,
                high,
                start,
            })
        } else {
            Err(ImageFault::Field)
        }
    }

    fn low(&mut self, kind: IlType) -> Result<i64, ImageFault>
        ensures { Takes (low_at kind self.old) result self.new }
    {
        let low = self.number()?;
        if is_low(kind, low) {
            Ok(low)
        } else {
            Err(ImageFault::Field)
        }
    }

    fn high(&mut self, kind: IlType, low: i64) -> Result<i64, ImageFault>
        ensures { Takes (high_at kind low self.old) result self.new }
    {
        let high = self.number()?;
        if is_high(kind, low, high) {
            Ok(high)
        } else {
            Err(ImageFault::Field)
        }
    }

    /// A tag, after these variables and tags.
    fn tag(&mut self, vars: &[Var], before: &[Tag]) -> Result<Tag, ImageFault>
        ensures { Takes (tag_at (names_of vars.now before.now) self.old) result self.new }
    {
        let name = self.name(vars, before)?;
        let direction = self.direction()?;
        let kind = self.kind()?;
        Ok(Tag {
            name,
            output: direction == 1,
            kind,
        })
    }

    fn direction(&mut self) -> Result<u8, ImageFault>
        ensures { Takes (direction_at self.old) result self.new }
    {
        let direction = self.byte()?;
        if direction <= 1 {
            Ok(direction)
        } else {
            Err(ImageFault::Field)
        }
    }

    /// A name that none of these variables and tags has.
    fn name(&mut self, vars: &[Var], tags: &[Tag]) -> Result<Name, ImageFault>
        ensures { Takes (name_at (names_of vars.now tags.now) self.old) result self.new }
    {
        let length = self.name_length()?;
        match new_name(vars, tags, self.piece(length as usize)?) {
            Some(name) => Ok(name),
            None => Err(ImageFault::Field),
        }
    }

    fn name_length(&mut self) -> Result<u8, ImageFault>
        ensures { Takes (name_length_at self.old) result self.new }
    {
        let length = self.byte()?;
        if length >= 1 && length <= 32 {
            Ok(length)
        } else {
            Err(ImageFault::Field)
        }
    }

    /// The type of a number.
    fn kind(&mut self) -> Result<IlType, ImageFault>
        ensures { Takes (type_at self.old) result self.new }
    {
        match self.byte()? {
            0 => Ok(IlType::Bool),
            1 => Ok(IlType::Sint),
            2 => Ok(IlType::Int),
            3 => Ok(IlType::Dint),
            4 => Ok(IlType::Lint),
            5 => Ok(IlType::Usint),
            6 => Ok(IlType::Uint),
            7 => Ok(IlType::Udint),
            _ => Err(ImageFault::Field),
        }
    }

    fn byte(&mut self) -> Result<u8, ImageFault>
        ensures { Takes (byte_at self.old) result self.new }
    {
        match self.rest {
            [byte, rest @ ..] => {
                self.rest = rest;
                Ok(*byte)
            }
            [] => Err(ImageFault::Cut),
        }
    }

    /// A number of two bytes.
    fn place(&mut self) -> Result<u16, ImageFault>
        ensures { Takes (place_at self.old) result self.new }
    {
        match self.rest {
            [high, low, rest @ ..] => {
                self.rest = rest;
                Ok(place_from(*high, *low))
            }
            _ => Err(ImageFault::Cut),
        }
    }

    /// A number of eight bytes in two's complement.
    fn number(&mut self) -> Result<i64, ImageFault>
        ensures { Takes (number_at self.old) result self.new }
    {
        match self.rest {
            [a, b, c, d, e, f, g, h, rest @ ..] => {
                self.rest = rest;
                Ok(number_from([*a, *b, *c, *d, *e, *f, *g, *h]))
            }
            _ => Err(ImageFault::Cut),
        }
    }

    /// So many bytes.
    fn piece(&mut self, length: usize) -> Result<&'a [u8], ImageFault>
        ensures { MatchResult result
            (λ piece. piece_at length self.old ≡ Ok (piece.now, self.new))
            (λ fault. piece_at length self.old ≡ Err fault) }
    {
        if length > self.rest.len() {
            return Err(ImageFault::Cut);
        }
        let (piece, rest) = self.rest.split_at(length);
        self.rest = rest;
        Ok(piece)
    }
}
