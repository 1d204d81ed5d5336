//! The one table of the instructions, from which all else is made.

/// The table of instructions: code byte, shape of the instruction, its name in `Op` (or that of its
/// operator or condition), and the step that does it. `$then` is a macro that gets `$context` and the table.
#[macro_export]
macro_rules! instructions {
    ($then:ident $context:tt) => {
        $then! { $context
            0x00 bare End end;
            0x01 variable LoadVariable load_variable;
            0x02 input LoadInput load_input;
            0x03 input LoadPresence load_presence;
            0x04 truth LoadBool load_bool;
            0x05 number LoadNumber load_number;
            0x06 variable StoreVariable store_variable;
            0x07 output StoreOutput store_output;
            0x08 variable SetVariable set_variable;
            0x09 variable ResetVariable reset_variable;
            0x0A output SetOutput set_output;
            0x0B output ResetOutput reset_output;
            0x0C bare Push push;
            0x0D bare Not invert;
            0x0E operator And apply;
            0x0F operator Or apply;
            0x10 operator Xor apply;
            0x11 operator Add apply;
            0x12 operator Sub apply;
            0x13 operator Mul apply;
            0x14 operator Div apply;
            0x15 operator Mod apply;
            0x16 operator Gt apply;
            0x17 operator Ge apply;
            0x18 operator Eq apply;
            0x19 operator Ne apply;
            0x1A operator Le apply;
            0x1B operator Lt apply;
            0x1C operator Min apply;
            0x1D operator Max apply;
            0x1E bare Select select;
            0x1F bare Absolute absolute;
            0x20 types Convert convert;
            0x21 jump Always jump;
            0x22 jump IfTrue jump;
            0x23 jump IfFalse jump;
            0x24 leave IfTrue leave;
            0x25 leave IfFalse leave;
            0x26 repeat Always repeat;
            0x27 repeat IfTrue repeat;
            0x28 repeat IfFalse repeat;
        }
    };
}

/// The pattern of an instruction of the table, by its shape; up to three names are bound to its arguments. `Op`,
/// `Operator` and `Condition` stand for themselves where it is used.
#[macro_export]
macro_rules! instruction {
    (bare $name:ident $a:ident $b:ident $c:ident) => { Op::$name };
    (operator $name:ident $a:ident $b:ident $c:ident) => { Op::Apply(Operator::$name) };
    (leave $name:ident $a:ident $b:ident $c:ident) => { Op::Return(Condition::$name) };
    (variable $name:ident $a:ident $b:ident $c:ident) => { Op::$name($a) };
    (input $name:ident $a:ident $b:ident $c:ident) => { Op::$name($a) };
    (output $name:ident $a:ident $b:ident $c:ident) => { Op::$name($a) };
    (truth $name:ident $a:ident $b:ident $c:ident) => { Op::$name($a) };
    (number $name:ident $a:ident $b:ident $c:ident) => { Op::$name($a, $b) };
    (types $name:ident $a:ident $b:ident $c:ident) => { Op::$name($a, $b) };
    (jump $name:ident $a:ident $b:ident $c:ident) => { Op::Jump(Condition::$name, $a) };
    (repeat $name:ident $a:ident $b:ident $c:ident) => { Op::Repeat(Condition::$name, $a, $b, $c) };
}
