//! What the tests take: a worked site, programs, and functions that make sites, images and tags of them.
pub(crate) mod images;
pub(crate) mod programs;
pub(crate) mod sites;
pub(crate) mod tags;
