//! What people are told of a kind of refusal.

/// A kind of refusal with texts for people. In both `{}` stands for the name of the variable or the tag.
pub(crate) trait Explained {
    /// What is wrong, in short.
    fn meaning(self) -> &'static str;

    /// What to do about it.
    fn help(self) -> &'static str;
}
