//! The rows, in the order of the opcodes. A row reads `[mnemonic form size ..]`, and `-` is an opcode
//! that stands for no instruction.
use crate::{Form, OpRow};

macro_rules! op_row {
    (-) => {
        op_row!([none Unknown 0])
    };
    ([$name:tt $form:ident $size:literal]) => {
        OpRow { form: Form::$form, size: $size, floating: false, ends: false, returns: false }
    };
    ([$name:tt $form:ident $size:literal floating]) => {
        OpRow { form: Form::$form, size: $size, floating: true, ends: false, returns: false }
    };
    ([$name:tt $form:ident $size:literal ends]) => {
        OpRow { form: Form::$form, size: $size, floating: false, ends: true, returns: false }
    };
    ([$name:tt $form:ident $size:literal returns]) => {
        OpRow { form: Form::$form, size: $size, floating: false, ends: true, returns: true }
    };
    ([$name:tt $form:ident $size:literal floating returns]) => {
        OpRow { form: Form::$form, size: $size, floating: true, ends: true, returns: true }
    };
}

macro_rules! op_rows {
    ($($row:tt)*) => {
        [$(op_row!($row)),*]
    };
}

/// The instructions by opcode (JVM Specification, SE 7, 6.5 and 7), but for `invokedynamic`, which no
/// class file of a version up to 50 may have.
pub const OPS: [OpRow; 256] = op_rows![
    // 0 to 15
    [nop Plain 1] [aconst_null Plain 1] [iconst_m1 Plain 1] [iconst_0 Plain 1] [iconst_1 Plain 1]
    [iconst_2 Plain 1] [iconst_3 Plain 1] [iconst_4 Plain 1] [iconst_5 Plain 1] [lconst_0 Plain 1]
    [lconst_1 Plain 1] [fconst_0 Plain 1 floating] [fconst_1 Plain 1 floating]
    [fconst_2 Plain 1 floating] [dconst_0 Plain 1 floating] [dconst_1 Plain 1 floating]
    // 16 to 31
    [bipush Byte 2] [sipush Short 3] [ldc PoolByte 2] [ldc_w Pool 3] [ldc2_w Pool 3]
    [iload Local 2] [lload Local 2] [fload Local 2 floating] [dload Local 2 floating]
    [aload Local 2] [iload_0 Plain 1] [iload_1 Plain 1] [iload_2 Plain 1] [iload_3 Plain 1]
    [lload_0 Plain 1] [lload_1 Plain 1]
    // 32 to 47
    [lload_2 Plain 1] [lload_3 Plain 1] [fload_0 Plain 1 floating] [fload_1 Plain 1 floating]
    [fload_2 Plain 1 floating] [fload_3 Plain 1 floating] [dload_0 Plain 1 floating]
    [dload_1 Plain 1 floating] [dload_2 Plain 1 floating] [dload_3 Plain 1 floating]
    [aload_0 Plain 1] [aload_1 Plain 1] [aload_2 Plain 1] [aload_3 Plain 1] [iaload Plain 1]
    [laload Plain 1]
    // 48 to 63
    [faload Plain 1 floating] [daload Plain 1 floating] [aaload Plain 1] [baload Plain 1]
    [caload Plain 1] [saload Plain 1] [istore Local 2] [lstore Local 2] [fstore Local 2 floating]
    [dstore Local 2 floating] [astore Local 2] [istore_0 Plain 1] [istore_1 Plain 1]
    [istore_2 Plain 1] [istore_3 Plain 1] [lstore_0 Plain 1]
    // 64 to 79
    [lstore_1 Plain 1] [lstore_2 Plain 1] [lstore_3 Plain 1] [fstore_0 Plain 1 floating]
    [fstore_1 Plain 1 floating] [fstore_2 Plain 1 floating] [fstore_3 Plain 1 floating]
    [dstore_0 Plain 1 floating] [dstore_1 Plain 1 floating] [dstore_2 Plain 1 floating]
    [dstore_3 Plain 1 floating] [astore_0 Plain 1] [astore_1 Plain 1] [astore_2 Plain 1]
    [astore_3 Plain 1] [iastore Plain 1]
    // 80 to 95
    [lastore Plain 1] [fastore Plain 1 floating] [dastore Plain 1 floating] [aastore Plain 1]
    [bastore Plain 1] [castore Plain 1] [sastore Plain 1] [pop Plain 1] [pop2 Plain 1]
    [dup Plain 1] [dup_x1 Plain 1] [dup_x2 Plain 1] [dup2 Plain 1] [dup2_x1 Plain 1]
    [dup2_x2 Plain 1] [swap Plain 1]
    // 96 to 111
    [iadd Plain 1] [ladd Plain 1] [fadd Plain 1 floating] [dadd Plain 1 floating] [isub Plain 1]
    [lsub Plain 1] [fsub Plain 1 floating] [dsub Plain 1 floating] [imul Plain 1] [lmul Plain 1]
    [fmul Plain 1 floating] [dmul Plain 1 floating] [idiv Plain 1] [ldiv Plain 1]
    [fdiv Plain 1 floating] [ddiv Plain 1 floating]
    // 112 to 127
    [irem Plain 1] [lrem Plain 1] [frem Plain 1 floating] [drem Plain 1 floating] [ineg Plain 1]
    [lneg Plain 1] [fneg Plain 1 floating] [dneg Plain 1 floating] [ishl Plain 1] [lshl Plain 1]
    [ishr Plain 1] [lshr Plain 1] [iushr Plain 1] [lushr Plain 1] [iand Plain 1] [land Plain 1]
    // 128 to 143
    [ior Plain 1] [lor Plain 1] [ixor Plain 1] [lxor Plain 1] [iinc Inc 3] [i2l Plain 1]
    [i2f Plain 1 floating] [i2d Plain 1 floating] [l2i Plain 1] [l2f Plain 1 floating]
    [l2d Plain 1 floating] [f2i Plain 1 floating] [f2l Plain 1 floating] [f2d Plain 1 floating]
    [d2i Plain 1 floating] [d2l Plain 1 floating]
    // 144 to 159
    [d2f Plain 1 floating] [i2b Plain 1] [i2c Plain 1] [i2s Plain 1] [lcmp Plain 1]
    [fcmpl Plain 1 floating] [fcmpg Plain 1 floating] [dcmpl Plain 1 floating]
    [dcmpg Plain 1 floating] [ifeq Jump 3] [ifne Jump 3] [iflt Jump 3] [ifge Jump 3] [ifgt Jump 3]
    [ifle Jump 3] [if_icmpeq Jump 3]
    // 160 to 175
    [if_icmpne Jump 3] [if_icmplt Jump 3] [if_icmpge Jump 3] [if_icmpgt Jump 3] [if_icmple Jump 3]
    [if_acmpeq Jump 3] [if_acmpne Jump 3] [goto Jump 3 ends] [jsr Jump 3] [ret Local 2 ends]
    [tableswitch Table 0 ends] [lookupswitch Lookup 0 ends] [ireturn Plain 1 returns]
    [lreturn Plain 1 returns] [freturn Plain 1 floating returns]
    [dreturn Plain 1 floating returns]
    // 176 to 191
    [areturn Plain 1 returns] [return Plain 1 returns] [getstatic Pool 3] [putstatic Pool 3]
    [getfield Pool 3] [putfield Pool 3] [invokevirtual Pool 3] [invokespecial Pool 3]
    [invokestatic Pool 3] [invokeinterface Interface 5] - [new Pool 3] [newarray Array 2]
    [anewarray Pool 3] [arraylength Plain 1] [athrow Plain 1 ends]
    // 192 to 207
    [checkcast Pool 3] [instanceof Pool 3] [monitorenter Plain 1] [monitorexit Plain 1]
    [wide Wide 0] [multianewarray Multi 4] [ifnull Jump 3] [ifnonnull Jump 3]
    [goto_w JumpWide 5 ends] [jsr_w JumpWide 5] - - - - - -
    // 208 to 223
    - - - - - - - - - - - - - - - -
    // 224 to 239
    - - - - - - - - - - - - - - - -
    // 240 to 255
    - - - - - - - - - - - - - - - -
];

/// The instructions that may follow `wide`, by their own opcodes (JVM Specification, SE 7, `wide` in
/// 6.5). A size counts the `wide` too.
pub const WIDE_OPS: [OpRow; 256] = op_rows![
    // 0 to 15
    - - - - - - - - - - - - - - - -
    // 16 to 31
    - - - - - [iload Local 4] [lload Local 4] [fload Local 4 floating] [dload Local 4 floating]
    [aload Local 4] - - - - - -
    // 32 to 47
    - - - - - - - - - - - - - - - -
    // 48 to 63
    - - - - - - [istore Local 4] [lstore Local 4] [fstore Local 4 floating]
    [dstore Local 4 floating] [astore Local 4] - - - - -
    // 64 to 79
    - - - - - - - - - - - - - - - -
    // 80 to 95
    - - - - - - - - - - - - - - - -
    // 96 to 111
    - - - - - - - - - - - - - - - -
    // 112 to 127
    - - - - - - - - - - - - - - - -
    // 128 to 143
    - - - - [iinc Inc 6] - - - - - - - - - - -
    // 144 to 159
    - - - - - - - - - - - - - - - -
    // 160 to 175
    - - - - - - - - - [ret Local 4 ends] - - - - - -
    // 176 to 191
    - - - - - - - - - - - - - - - -
    // 192 to 207
    - - - - - - - - - - - - - - - -
    // 208 to 223
    - - - - - - - - - - - - - - - -
    // 224 to 239
    - - - - - - - - - - - - - - - -
    // 240 to 255
    - - - - - - - - - - - - - - - -
];
