// The opcodes (JVMS 6.5). Each has the name of its mnemonic.

/// The opcode of `nop`.
pub const NOP: u8 = 0;
/// The opcode of `aconst_null`.
pub const ACONST_NULL: u8 = 1;
/// The opcode of `iconst_m1`.
pub const ICONST_M1: u8 = 2;
/// The opcode of `iconst_0`.
pub const ICONST_0: u8 = 3;
/// The opcode of `iconst_1`.
pub const ICONST_1: u8 = 4;
/// The opcode of `iconst_2`.
pub const ICONST_2: u8 = 5;
/// The opcode of `iconst_3`.
pub const ICONST_3: u8 = 6;
/// The opcode of `iconst_4`.
pub const ICONST_4: u8 = 7;
/// The opcode of `iconst_5`.
pub const ICONST_5: u8 = 8;
/// The opcode of `lconst_0`.
pub const LCONST_0: u8 = 9;
/// The opcode of `lconst_1`.
pub const LCONST_1: u8 = 10;
/// The opcode of `fconst_0`.
pub const FCONST_0: u8 = 11;
/// The opcode of `fconst_1`.
pub const FCONST_1: u8 = 12;
/// The opcode of `fconst_2`.
pub const FCONST_2: u8 = 13;
/// The opcode of `dconst_0`.
pub const DCONST_0: u8 = 14;
/// The opcode of `dconst_1`.
pub const DCONST_1: u8 = 15;
/// The opcode of `bipush`.
pub const BIPUSH: u8 = 16;
/// The opcode of `sipush`.
pub const SIPUSH: u8 = 17;
/// The opcode of `ldc`.
pub const LDC: u8 = 18;
/// The opcode of `ldc_w`.
pub const LDC_W: u8 = 19;
/// The opcode of `ldc2_w`.
pub const LDC2_W: u8 = 20;
/// The opcode of `iload`.
pub const ILOAD: u8 = 21;
/// The opcode of `lload`.
pub const LLOAD: u8 = 22;
/// The opcode of `fload`.
pub const FLOAD: u8 = 23;
/// The opcode of `dload`.
pub const DLOAD: u8 = 24;
/// The opcode of `aload`.
pub const ALOAD: u8 = 25;
/// The opcode of `iload_0`.
pub const ILOAD_0: u8 = 26;
/// The opcode of `iload_1`.
pub const ILOAD_1: u8 = 27;
/// The opcode of `iload_2`.
pub const ILOAD_2: u8 = 28;
/// The opcode of `iload_3`.
pub const ILOAD_3: u8 = 29;
/// The opcode of `lload_0`.
pub const LLOAD_0: u8 = 30;
/// The opcode of `lload_1`.
pub const LLOAD_1: u8 = 31;
/// The opcode of `lload_2`.
pub const LLOAD_2: u8 = 32;
/// The opcode of `lload_3`.
pub const LLOAD_3: u8 = 33;
/// The opcode of `fload_0`.
pub const FLOAD_0: u8 = 34;
/// The opcode of `fload_1`.
pub const FLOAD_1: u8 = 35;
/// The opcode of `fload_2`.
pub const FLOAD_2: u8 = 36;
/// The opcode of `fload_3`.
pub const FLOAD_3: u8 = 37;
/// The opcode of `dload_0`.
pub const DLOAD_0: u8 = 38;
/// The opcode of `dload_1`.
pub const DLOAD_1: u8 = 39;
/// The opcode of `dload_2`.
pub const DLOAD_2: u8 = 40;
/// The opcode of `dload_3`.
pub const DLOAD_3: u8 = 41;
/// The opcode of `aload_0`.
pub const ALOAD_0: u8 = 42;
/// The opcode of `aload_1`.
pub const ALOAD_1: u8 = 43;
/// The opcode of `aload_2`.
pub const ALOAD_2: u8 = 44;
/// The opcode of `aload_3`.
pub const ALOAD_3: u8 = 45;
/// The opcode of `iaload`.
pub const IALOAD: u8 = 46;
/// The opcode of `laload`.
pub const LALOAD: u8 = 47;
/// The opcode of `faload`.
pub const FALOAD: u8 = 48;
/// The opcode of `daload`.
pub const DALOAD: u8 = 49;
/// The opcode of `aaload`.
pub const AALOAD: u8 = 50;
/// The opcode of `baload`.
pub const BALOAD: u8 = 51;
/// The opcode of `caload`.
pub const CALOAD: u8 = 52;
/// The opcode of `saload`.
pub const SALOAD: u8 = 53;
/// The opcode of `istore`.
pub const ISTORE: u8 = 54;
/// The opcode of `lstore`.
pub const LSTORE: u8 = 55;
/// The opcode of `fstore`.
pub const FSTORE: u8 = 56;
/// The opcode of `dstore`.
pub const DSTORE: u8 = 57;
/// The opcode of `astore`.
pub const ASTORE: u8 = 58;
/// The opcode of `istore_0`.
pub const ISTORE_0: u8 = 59;
/// The opcode of `istore_1`.
pub const ISTORE_1: u8 = 60;
/// The opcode of `istore_2`.
pub const ISTORE_2: u8 = 61;
/// The opcode of `istore_3`.
pub const ISTORE_3: u8 = 62;
/// The opcode of `lstore_0`.
pub const LSTORE_0: u8 = 63;
/// The opcode of `lstore_1`.
pub const LSTORE_1: u8 = 64;
/// The opcode of `lstore_2`.
pub const LSTORE_2: u8 = 65;
/// The opcode of `lstore_3`.
pub const LSTORE_3: u8 = 66;
/// The opcode of `fstore_0`.
pub const FSTORE_0: u8 = 67;
/// The opcode of `fstore_1`.
pub const FSTORE_1: u8 = 68;
/// The opcode of `fstore_2`.
pub const FSTORE_2: u8 = 69;
/// The opcode of `fstore_3`.
pub const FSTORE_3: u8 = 70;
/// The opcode of `dstore_0`.
pub const DSTORE_0: u8 = 71;
/// The opcode of `dstore_1`.
pub const DSTORE_1: u8 = 72;
/// The opcode of `dstore_2`.
pub const DSTORE_2: u8 = 73;
/// The opcode of `dstore_3`.
pub const DSTORE_3: u8 = 74;
/// The opcode of `astore_0`.
pub const ASTORE_0: u8 = 75;
/// The opcode of `astore_1`.
pub const ASTORE_1: u8 = 76;
/// The opcode of `astore_2`.
pub const ASTORE_2: u8 = 77;
/// The opcode of `astore_3`.
pub const ASTORE_3: u8 = 78;
/// The opcode of `iastore`.
pub const IASTORE: u8 = 79;
/// The opcode of `lastore`.
pub const LASTORE: u8 = 80;
/// The opcode of `fastore`.
pub const FASTORE: u8 = 81;
/// The opcode of `dastore`.
pub const DASTORE: u8 = 82;
/// The opcode of `aastore`.
pub const AASTORE: u8 = 83;
/// The opcode of `bastore`.
pub const BASTORE: u8 = 84;
/// The opcode of `castore`.
pub const CASTORE: u8 = 85;
/// The opcode of `sastore`.
pub const SASTORE: u8 = 86;
/// The opcode of `pop`.
pub const POP: u8 = 87;
/// The opcode of `pop2`.
pub const POP2: u8 = 88;
/// The opcode of `dup`.
pub const DUP: u8 = 89;
/// The opcode of `dup_x1`.
pub const DUP_X1: u8 = 90;
/// The opcode of `dup_x2`.
pub const DUP_X2: u8 = 91;
/// The opcode of `dup2`.
pub const DUP2: u8 = 92;
/// The opcode of `dup2_x1`.
pub const DUP2_X1: u8 = 93;
/// The opcode of `dup2_x2`.
pub const DUP2_X2: u8 = 94;
/// The opcode of `swap`.
pub const SWAP: u8 = 95;
/// The opcode of `iadd`.
pub const IADD: u8 = 96;
/// The opcode of `ladd`.
pub const LADD: u8 = 97;
/// The opcode of `fadd`.
pub const FADD: u8 = 98;
/// The opcode of `dadd`.
pub const DADD: u8 = 99;
/// The opcode of `isub`.
pub const ISUB: u8 = 100;
/// The opcode of `lsub`.
pub const LSUB: u8 = 101;
/// The opcode of `fsub`.
pub const FSUB: u8 = 102;
/// The opcode of `dsub`.
pub const DSUB: u8 = 103;
/// The opcode of `imul`.
pub const IMUL: u8 = 104;
/// The opcode of `lmul`.
pub const LMUL: u8 = 105;
/// The opcode of `fmul`.
pub const FMUL: u8 = 106;
/// The opcode of `dmul`.
pub const DMUL: u8 = 107;
/// The opcode of `idiv`.
pub const IDIV: u8 = 108;
/// The opcode of `ldiv`.
pub const LDIV: u8 = 109;
/// The opcode of `fdiv`.
pub const FDIV: u8 = 110;
/// The opcode of `ddiv`.
pub const DDIV: u8 = 111;
/// The opcode of `irem`.
pub const IREM: u8 = 112;
/// The opcode of `lrem`.
pub const LREM: u8 = 113;
/// The opcode of `frem`.
pub const FREM: u8 = 114;
/// The opcode of `drem`.
pub const DREM: u8 = 115;
/// The opcode of `ineg`.
pub const INEG: u8 = 116;
/// The opcode of `lneg`.
pub const LNEG: u8 = 117;
/// The opcode of `fneg`.
pub const FNEG: u8 = 118;
/// The opcode of `dneg`.
pub const DNEG: u8 = 119;
/// The opcode of `ishl`.
pub const ISHL: u8 = 120;
/// The opcode of `lshl`.
pub const LSHL: u8 = 121;
/// The opcode of `ishr`.
pub const ISHR: u8 = 122;
/// The opcode of `lshr`.
pub const LSHR: u8 = 123;
/// The opcode of `iushr`.
pub const IUSHR: u8 = 124;
/// The opcode of `lushr`.
pub const LUSHR: u8 = 125;
/// The opcode of `iand`.
pub const IAND: u8 = 126;
/// The opcode of `land`.
pub const LAND: u8 = 127;
/// The opcode of `ior`.
pub const IOR: u8 = 128;
/// The opcode of `lor`.
pub const LOR: u8 = 129;
/// The opcode of `ixor`.
pub const IXOR: u8 = 130;
/// The opcode of `lxor`.
pub const LXOR: u8 = 131;
/// The opcode of `iinc`.
pub const IINC: u8 = 132;
/// The opcode of `i2l`.
pub const I2L: u8 = 133;
/// The opcode of `i2f`.
pub const I2F: u8 = 134;
/// The opcode of `i2d`.
pub const I2D: u8 = 135;
/// The opcode of `l2i`.
pub const L2I: u8 = 136;
/// The opcode of `l2f`.
pub const L2F: u8 = 137;
/// The opcode of `l2d`.
pub const L2D: u8 = 138;
/// The opcode of `f2i`.
pub const F2I: u8 = 139;
/// The opcode of `f2l`.
pub const F2L: u8 = 140;
/// The opcode of `f2d`.
pub const F2D: u8 = 141;
/// The opcode of `d2i`.
pub const D2I: u8 = 142;
/// The opcode of `d2l`.
pub const D2L: u8 = 143;
/// The opcode of `d2f`.
pub const D2F: u8 = 144;
/// The opcode of `i2b`.
pub const I2B: u8 = 145;
/// The opcode of `i2c`.
pub const I2C: u8 = 146;
/// The opcode of `i2s`.
pub const I2S: u8 = 147;
/// The opcode of `lcmp`.
pub const LCMP: u8 = 148;
/// The opcode of `fcmpl`.
pub const FCMPL: u8 = 149;
/// The opcode of `fcmpg`.
pub const FCMPG: u8 = 150;
/// The opcode of `dcmpl`.
pub const DCMPL: u8 = 151;
/// The opcode of `dcmpg`.
pub const DCMPG: u8 = 152;
/// The opcode of `ifeq`.
pub const IFEQ: u8 = 153;
/// The opcode of `ifne`.
pub const IFNE: u8 = 154;
/// The opcode of `iflt`.
pub const IFLT: u8 = 155;
/// The opcode of `ifge`.
pub const IFGE: u8 = 156;
/// The opcode of `ifgt`.
pub const IFGT: u8 = 157;
/// The opcode of `ifle`.
pub const IFLE: u8 = 158;
/// The opcode of `if_icmpeq`.
pub const IF_ICMPEQ: u8 = 159;
/// The opcode of `if_icmpne`.
pub const IF_ICMPNE: u8 = 160;
/// The opcode of `if_icmplt`.
pub const IF_ICMPLT: u8 = 161;
/// The opcode of `if_icmpge`.
pub const IF_ICMPGE: u8 = 162;
/// The opcode of `if_icmpgt`.
pub const IF_ICMPGT: u8 = 163;
/// The opcode of `if_icmple`.
pub const IF_ICMPLE: u8 = 164;
/// The opcode of `if_acmpeq`.
pub const IF_ACMPEQ: u8 = 165;
/// The opcode of `if_acmpne`.
pub const IF_ACMPNE: u8 = 166;
/// The opcode of `goto`.
pub const GOTO: u8 = 167;
/// The opcode of `jsr`.
pub const JSR: u8 = 168;
/// The opcode of `ret`.
pub const RET: u8 = 169;
/// The opcode of `tableswitch`.
pub const TABLESWITCH: u8 = 170;
/// The opcode of `lookupswitch`.
pub const LOOKUPSWITCH: u8 = 171;
/// The opcode of `ireturn`.
pub const IRETURN: u8 = 172;
/// The opcode of `lreturn`.
pub const LRETURN: u8 = 173;
/// The opcode of `freturn`.
pub const FRETURN: u8 = 174;
/// The opcode of `dreturn`.
pub const DRETURN: u8 = 175;
/// The opcode of `areturn`.
pub const ARETURN: u8 = 176;
/// The opcode of `return`.
pub const RETURN: u8 = 177;
/// The opcode of `getstatic`.
pub const GETSTATIC: u8 = 178;
/// The opcode of `putstatic`.
pub const PUTSTATIC: u8 = 179;
/// The opcode of `getfield`.
pub const GETFIELD: u8 = 180;
/// The opcode of `putfield`.
pub const PUTFIELD: u8 = 181;
/// The opcode of `invokevirtual`.
pub const INVOKEVIRTUAL: u8 = 182;
/// The opcode of `invokespecial`.
pub const INVOKESPECIAL: u8 = 183;
/// The opcode of `invokestatic`.
pub const INVOKESTATIC: u8 = 184;
/// The opcode of `invokeinterface`.
pub const INVOKEINTERFACE: u8 = 185;
/// The opcode of `invokedynamic`.
pub const INVOKEDYNAMIC: u8 = 186;
/// The opcode of `new`.
pub const NEW: u8 = 187;
/// The opcode of `newarray`.
pub const NEWARRAY: u8 = 188;
/// The opcode of `anewarray`.
pub const ANEWARRAY: u8 = 189;
/// The opcode of `arraylength`.
pub const ARRAYLENGTH: u8 = 190;
/// The opcode of `athrow`.
pub const ATHROW: u8 = 191;
/// The opcode of `checkcast`.
pub const CHECKCAST: u8 = 192;
/// The opcode of `instanceof`.
pub const INSTANCEOF: u8 = 193;
/// The opcode of `monitorenter`.
pub const MONITORENTER: u8 = 194;
/// The opcode of `monitorexit`.
pub const MONITOREXIT: u8 = 195;
/// The opcode of `wide`.
pub const WIDE: u8 = 196;
/// The opcode of `multianewarray`.
pub const MULTIANEWARRAY: u8 = 197;
/// The opcode of `ifnull`.
pub const IFNULL: u8 = 198;
/// The opcode of `ifnonnull`.
pub const IFNONNULL: u8 = 199;
/// The opcode of `goto_w`.
pub const GOTO_W: u8 = 200;
/// The opcode of `jsr_w`.
pub const JSR_W: u8 = 201;
