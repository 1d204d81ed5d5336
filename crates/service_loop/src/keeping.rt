//! The files that a service keeps.
use point_types::Name;

/// Where a service keeps what.
#[derive(Clone, Copy)]
pub struct Keeping<'a, 't> {
    /// The file of set values and variables; none where they aren't kept.
    pub state: Option<KeptState<'a, 't>>,
    /// The path of the file that says how the service stands; none where there is none.
    pub status: Option<&'a str>,
}

/// The file of set values and variables, and the one beside it of the program that was accepted last.
#[derive(Clone, Copy)]
pub struct KeptState<'a, 't> {
    pub path: &'a str,
    /// What was read of it for this start.
    pub text: &'t str,
    /// The names of the variables that are kept.
    pub retained: &'a [Name],
    /// The program that runs from the start.
    pub program: &'a str,
}
