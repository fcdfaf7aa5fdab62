//! The rows of a generated program.

ghost use Rattle.std.specs.Prelude.{◌≡◌, ◌<◌, IfOk};
ghost use Rattle.program_gen.specs.Fits.{FitsClass, FitsName};
ghost use Rattle.program_gen.specs.declared.rows.ClassName.TheVariants.{Numbered};
ghost use Rattle.program_gen.specs.declared.rows.MemberName.TheVariants.{Initializer};
ghost use Rattle.program_gen.specs.declared.rows.Instruction.TheVariants.{Byte, Short, OfClass, OfMember};
ghost use Rattle.program_gen.specs.Programs.{run_code, constructor, run_method, entry_method, main_row, numbered_row};

use crate::rows::{Choices, ClassName, ClassRow, Instruction, MemberName, MethodRow};
use jf_bytes::{NoMemory, Seq};
use std::alloc::Global;

/// Opcodes (JVM Specification 6.5).
const ICONST_1: Instruction = Instruction::Plain(op_table::ICONST_1);

const ILOAD_1: Instruction = Instruction::Plain(op_table::ILOAD_1);

const ILOAD_2: Instruction = Instruction::Plain(op_table::ILOAD_2);

const ALOAD_0: Instruction = Instruction::Plain(op_table::ALOAD_0);

const DUP: Instruction = Instruction::Plain(op_table::DUP);

const IADD: Instruction = Instruction::Plain(op_table::IADD);

const ISUB: Instruction = Instruction::Plain(op_table::ISUB);

const IMUL: Instruction = Instruction::Plain(op_table::IMUL);

const IXOR: Instruction = Instruction::Plain(op_table::IXOR);

const IRETURN: Instruction = Instruction::Plain(op_table::IRETURN);

const RETURN: Instruction = Instruction::Plain(op_table::RETURN);

/// ifgt over the two instructions behind it, which have one byte each.
const IFGT: Instruction = Instruction::Short(op_table::IFGT, 5);

const GETSTATIC_OUT: Instruction = Instruction::OfMember(
    op_table::GETSTATIC,
    ClassName::System,
    MemberName::Out,
);

/// Gen0.run.
const RUN: Instruction = Instruction::OfMember(
    op_table::INVOKEVIRTUAL,
    ClassName::Numbered(0),
    MemberName::Run,
);

const PRINTLN: Instruction = Instruction::OfMember(
    op_table::INVOKEVIRTUAL,
    ClassName::PrintStream,
    MemberName::Println,
);

fn new(class: u32) -> Instruction
    ensures { result ≡ OfClass 187 (Numbered class) }
{
    Instruction::OfClass(op_table::NEW, ClassName::Numbered(class))
}

fn initialize(class: ClassName) -> Instruction
    ensures { result ≡ OfMember 183 class Initializer }
{
    Instruction::OfMember(op_table::INVOKESPECIAL, class, MemberName::Initializer)
}

fn sipush(number: u16) -> Instruction
    ensures { result ≡ Short 17 number }
{
    Instruction::Short(op_table::SIPUSH, number)
}

fn bipush(number: u8) -> Instruction
    ensures { result ≡ Byte 16 number }
{
    Instruction::Byte(op_table::BIPUSH, number)
}

fn constructor(alloc: Global, superclass: ClassName) -> Result<MethodRow, NoMemory>
    ensures { IfOk result (λ row. row ≡ constructor superclass) }
{
    let code = [ALOAD_0, initialize(superclass), RETURN];
    Ok(MethodRow {
        access: 0x0001,
        name: MemberName::Initializer,
        max_stack: 1,
        max_locals: 1,
        code: Seq::from_slice(alloc, &code)?,
    })
}

fn run_code(choices: Choices) -> [Instruction; 26]
    ensures { result ≡ run_code choices }
{
    let Choices {
        superclass: _,
        left,
        factor,
        addend,
        right,
    } = choices;
    [
        ILOAD_2,
        IFGT,
        ILOAD_1,
        IRETURN,
        new(left),
        DUP,
        initialize(ClassName::Numbered(left)),
        ILOAD_1,
        sipush(factor),
        IMUL,
        sipush(addend),
        IADD,
        ILOAD_2,
        ICONST_1,
        ISUB,
        RUN,
        new(right),
        DUP,
        initialize(ClassName::Numbered(right)),
        ILOAD_1,
        ILOAD_2,
        ICONST_1,
        ISUB,
        RUN,
        IXOR,
        IRETURN,
    ]
}

fn run_method(alloc: Global, choices: Choices) -> Result<MethodRow, NoMemory>
    ensures { IfOk result (λ row. row ≡ run_method choices) }
{
    Ok(MethodRow {
        access: 0x0001,
        name: MemberName::Run,
        max_stack: 5,
        max_locals: 3,
        code: Seq::from_slice(alloc, &run_code(choices))?,
    })
}

fn entry_method(alloc: Global) -> Result<MethodRow, NoMemory>
    ensures { IfOk result (λ row. row ≡ entry_method) }
{
    let code = [
        GETSTATIC_OUT,
        new(0),
        DUP,
        initialize(ClassName::Numbered(0)),
        ICONST_1,
        bipush(12),
        RUN,
        PRINTLN,
        RETURN,
    ];
    Ok(MethodRow {
        access: 0x0009,
        name: MemberName::Entry,
        max_stack: 4,
        max_locals: 1,
        code: Seq::from_slice(alloc, &code)?,
    })
}

/// The class with the entry.
pub(crate) fn main_row(alloc: Global) -> Result<ClassRow, NoMemory>
    ensures row { IfOk result (λ row. row ≡ main_row) }
    ensures fits { IfOk result FitsClass }
{
    let methods = Vec::from_array(alloc, [entry_method(alloc)?])?;
    Ok(ClassRow {
        name: ClassName::Main,
        superclass: ClassName::Object,
        methods: Seq::from_vec(methods),
    })
}

/// The class with a number, of which this was drawn.
pub(crate) fn numbered_row(
    alloc: Global,
    number: u32,
    choices: Choices,
) -> Result<ClassRow, NoMemory>
    requires number { number < 200 }
    requires superclass { FitsName choices.superclass }
    requires left { choices.left < 200 }
    requires right { choices.right < 200 }
    ensures row { IfOk result (λ row. row ≡ numbered_row number choices) }
    ensures fits { IfOk result FitsClass }
{
    let methods = [
        constructor(alloc, choices.superclass)?,
        run_method(alloc, choices)?,
    ];
    Ok(ClassRow {
        name: ClassName::Numbered(number),
        superclass: choices.superclass,
        methods: Seq::from_vec(Vec::from_array(alloc, methods)?),
    })
}
