//! A program's image: its code with the tables of its variables and tags.
use crate::image_fault::ImageFault;
use crate::image_names::have_names_of_their_own;
use crate::image_reader::Unread;
use crate::image_rules::{MOST_CODE, MOST_ENTRIES, have_whole_bools, is_version};
use crate::image_writer::{append_size, append_tags, append_vars};
use point_types::{IlType, Items, Name, Var};
use std::alloc::{AllocError, Global};
use std::marker::Model;

/// A tag of an image: its name, whether the program stores it (else it loads it), its type.
#[derive(Clone, Copy, PartialEq, Eq, Debug)]
pub struct Tag {
    pub name: Name,
    pub output: bool,
    pub kind: IlType,
}

/// A program as bytecode (IEC 61131-3 edition 2, 3.2), with the tables of its variables and tags. Each image
/// has version 1, or 2 where there are counted jumps, at most 1,024 variables and 1,024 tags, no name twice
/// among both, the range 0..1 for each BOOL variable, and at most 65,535 bytes of code.
#[derive(Debug)]
pub struct Image {
    pub version: u8,
    pub vars: Items<Var>,
    pub tags: Items<Tag>,
    pub code: Items<u8>,
}

/// A call for whoever drops one: the proofs of the functions that own one needn't take it apart.
impl Drop for Image {
    fn drop(self) {
        let Image {
            version: _,
            vars: _,
            tags: _,
            code: _,
        } = self;
    }
}

impl Model for Image {
    ghost use Rattle.scan_code.specs.Image.{Image as Seen, IsProper};

    ghost Value = { Seen };

    ghost view = { λ i. record { version = i.version; vars = i.vars; tags = i.tags; code = i.code } };

    ghost invariant = { λ i. IsProper (record { version = i.version; vars = i.vars; tags = i.tags; code = i.code }) };
}

impl Image {
    ghost use Rattle.std.specs.Prelude.{◌≡◌, ◌⊎◌, Ok, Err, IfOk, MatchOption, MatchResult};
    ghost use Rattle.scan_code.specs.Image.{IsProper};
    ghost use Rattle.scan_code.specs.ImageReading.{image_in};
    ghost use Rattle.scan_code.specs.ImageSpelling.{spelled_image};
    ghost use Rattle.scan_code.specs.ImageWord.{out_of_memory};

    /// The image of these parts; none where they don't keep the rules of an image.
    pub fn new(version: u8, vars: Items<Var>, tags: Items<Tag>, code: Items<u8>) -> Option<Image>
        ensures { MatchOption result
            (¬ IsProper (record { version = version; vars = vars; tags = tags; code = code }))
            (λ image. image ≡ record { version = version; vars = vars; tags = tags; code = code }) }
    {
        if is_version(version)
            && vars.len() <= MOST_ENTRIES
            && tags.len() <= MOST_ENTRIES
            && code.len() <= MOST_CODE
            && have_whole_bools(vars.as_slice())
            && have_names_of_their_own(vars.as_slice(), tags.as_slice())
        {
            Some(Image {
                version,
                vars,
                tags,
                code,
            })
        } else {
            None
        }
    }

    /// The bytes of the image: the mark `ILSC`, the version, the numbers of variables, of tags and of code
    /// bytes, the variables, the tags, the code. Reading them gives the image again.
    pub fn write(&self, alloc: Global) -> Result<Vec<u8>, AllocError>
        ensures spelled { IfOk result (λ bytes. bytes.items ≡ spelled_image self.now) }
        ensures read_back { IfOk result (λ bytes. image_in bytes.items ≡ Ok self.now) }
    {
        let bytes = self.spell(alloc)?;
        Ok(bytes)
    }

    /// The image that the bytes spell, or the fault that is met first from left to right; each part is judged
    /// as soon as it is whole.
    pub fn read(alloc: Global, bytes: &[u8]) -> Result<Image, ImageFault>
        ensures { MatchResult result
            (λ image. image_in bytes.now ≡ Ok image)
            (λ fault. (image_in bytes.now ≡ Err fault) ⊎ (fault ≡ out_of_memory)) }
    {
        let mut unread = Unread::new(bytes);
        let image = unread.image(alloc)?;
        if unread.is_empty() {
            Ok(image)
        } else {
            Err(ImageFault::Rest)
        }
    }

    fn spell(&self, alloc: Global) -> Result<Vec<u8>, AllocError>
        ensures spelled { IfOk result (λ bytes. bytes.items ≡ spelled_image self.now) }
        ensures proper { IsProper self.now }
    {
        let version = self.version;
        let mut bytes = Vec::new(alloc);
        bytes.extend_from_slice(b"ILSC")?;
        bytes.push(version)?;
        append_size(&mut bytes, self.vars.len())?;
        append_size(&mut bytes, self.tags.len())?;
        append_size(&mut bytes, self.code.len())?;
        append_vars(&mut bytes, self.vars.as_slice())?;
        append_tags(&mut bytes, self.tags.as_slice())?;
        bytes.extend_from_slice(self.code.as_slice())?;
        Ok(bytes)
    }
}
