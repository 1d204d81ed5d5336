//! What stays the same throughout a program: its variables, tags and code.
ghost use Rattle.std.specs.Prelude.{◌≡◌, ◌<◌, MatchOption, Some, None, length, slice_get};
ghost use Rattle.facts.specs.Flow.{number_at};

use crate::instructions::Instructions;
use crate::tag_range::TagRange;
use point_types::{Items, Var};
use scan_code::Op;
use std::marker::Model;

/// What is fixed while a program is judged: its variables, what the site says of its tags, how many
/// values may be deferred, and its instructions with their addresses.
#[derive(Drop)]
pub struct Context {
    pub variables: Items<Var>,
    pub tags: Items<TagRange>,
    pub depth: usize,
    pub listing: Instructions,
}

impl Model for Context {
    ghost use Rattle.facts.specs.Flow.{Context as Fixed};

    ghost Value = { Fixed };

    ghost view = { λ f. record { variables = f.variables; tags = f.tags; depth = f.depth; listing = f.listing } };
}

impl Context {
    /// What the site says of one of the program's tags, if it has one of this number.
    pub fn tag(&self, t: usize) -> Option<&TagRange>
        ensures { MatchOption result (slice_get self.now.tags t ≡ None) (λ tag. slice_get self.now.tags t ≡ Some tag.now) }
    {
        self.tags.as_slice().get(t)
    }

    /// The instructions, with their addresses.
    pub fn instructions(&self) -> &[(usize, Op)]
        ensures { result.now ≡ self.now.listing }
    {
        self.listing.as_slice()
    }

    /// How many instructions there are.
    pub fn size(&self) -> usize
        ensures { result ≡ length self.now.listing }
    {
        self.listing.len()
    }

    /// The address of an instruction, by its number, and the instruction.
    pub fn instruction(&self, at: usize) -> (usize, Op)
        requires { at < length self.now.listing }
        ensures { slice_get self.now.listing at ≡ Some result }
    {
        self.listing.as_slice()[at]
    }

    /// The number of the first instruction at an address.
    pub fn number_at(&self, address: usize) -> Option<usize>
        ensures { result ≡ number_at self.now.listing 0 address }
    {
        self.listing.number_at(address)
    }
}
