//! The opcodes that code names (JVM Specification 6.5).

pub const ICONST_1: u8 = 4;

pub const BIPUSH: u8 = 16;

pub const SIPUSH: u8 = 17;

pub const LDC: u8 = 18;

pub const LDC_W: u8 = 19;

pub const LDC2_W: u8 = 20;

pub const ILOAD_1: u8 = 27;

pub const ILOAD_2: u8 = 28;

pub const ALOAD_0: u8 = 42;

pub const ALOAD_1: u8 = 43;

pub const ALOAD_2: u8 = 44;

pub const IALOAD: u8 = 46;

pub const LALOAD: u8 = 47;

pub const AALOAD: u8 = 50;

pub const BALOAD: u8 = 51;

pub const CALOAD: u8 = 52;

pub const SALOAD: u8 = 53;

pub const ASTORE_1: u8 = 76;

pub const ASTORE_2: u8 = 77;

pub const IASTORE: u8 = 79;

pub const LASTORE: u8 = 80;

pub const AASTORE: u8 = 83;

pub const BASTORE: u8 = 84;

pub const CASTORE: u8 = 85;

pub const SASTORE: u8 = 86;

pub const DUP: u8 = 89;

pub const IADD: u8 = 96;

pub const ISUB: u8 = 100;

pub const IMUL: u8 = 104;

pub const IXOR: u8 = 130;

pub const IFGT: u8 = 157;

pub const IRETURN: u8 = 172;

pub const LRETURN: u8 = 173;

pub const FRETURN: u8 = 174;

pub const DRETURN: u8 = 175;

pub const ARETURN: u8 = 176;

pub const RETURN: u8 = 177;

pub const GETSTATIC: u8 = 178;

pub const PUTSTATIC: u8 = 179;

pub const GETFIELD: u8 = 180;

pub const PUTFIELD: u8 = 181;

pub const INVOKEVIRTUAL: u8 = 182;

pub const INVOKESPECIAL: u8 = 183;

pub const INVOKESTATIC: u8 = 184;

pub const INVOKEINTERFACE: u8 = 185;

pub const NEW: u8 = 187;

pub const NEWARRAY: u8 = 188;

pub const ANEWARRAY: u8 = 189;

pub const ARRAYLENGTH: u8 = 190;

pub const ATHROW: u8 = 191;

pub const CHECKCAST: u8 = 192;

pub const INSTANCEOF: u8 = 193;

pub const MONITORENTER: u8 = 194;

pub const MONITOREXIT: u8 = 195;

pub const WIDE: u8 = 196;

pub const MULTIANEWARRAY: u8 = 197;

pub const IFNONNULL: u8 = 199;
