//! Texts on why a program is refused.
use crate::explained::Explained;
use verifier::RefusalKind;

impl Explained for RefusalKind {
    /// What is wrong, in short; `{}` stands for the name of the variable or the tag.
    fn meaning(self) -> &'static str {
        match self {
            RefusalKind::Code => "the bytes of the code are no instructions",
            RefusalKind::Jump => "a jump into the middle of an instruction",
            RefusalKind::WrongType => "operands of two types, or not of the type that is wanted",
            RefusalKind::Overflow => "the result may leave its type",
            RefusalKind::ZeroDivisor => "the divisor may be 0",
            RefusalKind::MayBeMissing => "{} may be missing here",
            RefusalKind::Stack => {
                "more values are deferred than may be, or not as many on each way"
            }
            RefusalKind::StoreRange => "the result may lie outside the range of {}",
            RefusalKind::TagUnknown => "the site has no tag {}",
            RefusalKind::TagType => "the site's tag {} has another type",
            RefusalKind::TagAccess => "the site's tag {} may not be loaded, or not be stored",
            RefusalKind::NoResult => "there is no result to store, test or combine",
            RefusalKind::OutOfMemory => "memory was refused",
            RefusalKind::OverBudget => "a scan may take more than 1,000,000 instructions",
        }
    }

    /// What to do about it; `{}` stands for the same name.
    fn help(self) -> &'static str {
        match self {
            RefusalKind::Code => "assemble the text again",
            RefusalKind::Jump => "assemble the text again",
            RefusalKind::WrongType => {
                "convert one of them, as by INT_TO_DINT, or write the type of a literal, as INT#8"
            }
            RefusalKind::Overflow => {
                "bound the operands by a subrange, by low and high of the tag, or by MIN and MAX before; or convert to a wider type first"
            }
            RefusalKind::ZeroDivisor => {
                "test it before (EQ 0 / JMPC elsewhere; LE 0 where its range begins below 0), or give it a range without 0, as by MAX 1"
            }
            RefusalKind::MayBeMissing => {
                "test it first (LD {}_OK / JMPCN elsewhere), or give the tag a default in the site file"
            }
            RefusalKind::Stack => "store parts of a nested expression in variables",
            RefusalKind::StoreRange => {
                "bound it by MAX and MIN before the store, or declare a wider range"
            }
            RefusalKind::TagUnknown =>
                "add a [[tag]] of that name to the site file, or correct the name; an external that isn't used asks for no tag",
            RefusalKind::TagType => "declare {} with the type of its tag",
            RefusalKind::TagAccess =>
                "load tags of access in and set, store those of out and site; keep what you store in a variable too, where you need it again",
            RefusalKind::NoResult => {
                "load first; after a label each way to it has to bring a result of one type"
            }
            RefusalKind::OutOfMemory => "give the program more memory, and run the command again",
            RefusalKind::OverBudget =>
                "lower the counts of the jumps with {LOOP n}, which together multiply the longest way",
        }
    }
}
