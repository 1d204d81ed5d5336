//! What to do about types that don't agree.
use crate::mending::{Mend, MendPlace, Way};
use crate::words::type_word;
use std::alloc::{AllocError, Global};

impl Mend {
    /// The conversion that mends types, or what SEL chooses between; nothing of another mend.
    pub fn name(self, alloc: Global) -> Result<String, AllocError> {
        match self.way {
            Way::Convert(from, to) => {
                let (from, to) = (type_word(from), type_word(to));
                format!(in alloc; "{from}_TO_{to}")
            }
            Way::Choose(kind) => {
                let kind = type_word(kind);
                format!(in alloc; "SEL {kind}#0, {kind}#1")
            }
            Way::LeaveAway | Way::Compare | Way::Store => Ok(String::new(alloc)),
        }
    }

    /// The help on types that don't agree; `{}` stands for the name.
    pub fn help(self) -> &'static str {
        match self.way {
            Way::Convert(_, _) => help_on_conversion(self.place),
            Way::Choose(_) => help_on_choice(self.place),
            Way::Compare => help_on_comparison(self.place),
            Way::LeaveAway => "leave the conversion out: what it converts has that type",
            Way::Store => "store by ST: S and R set a BOOL",
        }
    }
}

fn help_on_conversion(place: MendPlace) -> &'static str {
    match place {
        MendPlace::Before => "convert by {}, or write the type of a literal, as INT#8",
        MendPlace::Inside => {
            "convert the operand by {} in parentheses, as ADD( a / {} / ) on three lines, or write the type of a literal, as INT#8"
        }
        MendPlace::Apart => {
            "convert by {} on lines before, store it in a variable, and name that one here; or write the type of a literal, as INT#8"
        }
    }
}

fn help_on_choice(place: MendPlace) -> &'static str {
    match place {
        MendPlace::Before => "make a number of the BOOL on the line before, by {}",
        MendPlace::Inside => {
            "make a number of the operand in parentheses, as ADD( b / {} / ) on three lines"
        }
        MendPlace::Apart => {
            "make a number of the BOOL by {} on lines before, store it in a variable, and name that one here"
        }
    }
}

fn help_on_comparison(place: MendPlace) -> &'static str {
    match place {
        MendPlace::Before => "make a BOOL of the number by a comparison, as NE 0",
        MendPlace::Inside | MendPlace::Apart => {
            "make a BOOL of the operand by a comparison in parentheses, as AND( a / NE 0 / ) on three lines"
        }
    }
}
