// The shape of each instruction by its opcode: what follows the opcode, and which instruction it
// makes (JVMS 6.5).

ghost use Rattle.std.specs.Prelude.{◌≡◌};
ghost use Rattle.fm_code.specs.InstructionTable.{reading_of};
ghost use Rattle.fm_decode.specs.inner.Shapes.{jump_insn, indexed_insn, listed_reading, shape_reading, constant_opcodes, load_opcodes, store_opcodes, arithmetic_opcodes, conversion_opcodes, jump_opcodes, object_opcodes};

use fm_code::{Conv, Elem, Insn, Op, Reg, Shift, Test, opcodes};

/// What follows an opcode, and which instruction it makes.
#[derive(Debug, Drop)]
pub(crate) enum InsnShape {
    /// No instruction has the opcode.
    Unknown,
    /// Nothing follows it.
    Bare(Insn),
    /// An instruction that is left out, by its opcode, and how many bytes follow that.
    LeftOut(u8, u8),
    /// An index of one byte.
    Byte(Indexed),
    /// An index of two bytes.
    Short(Indexed),
    /// A signed byte that is put on the stack.
    SignedByte,
    /// A signed number of two bytes that is put on the stack.
    SignedShort,
    /// A local, and a signed byte that is added to it.
    Increment,
    /// How far it is jumped, in two bytes.
    Jump(JumpKind),
    /// How far it is jumped, in four bytes.
    LongJump,
    /// An index of two bytes, a count and a byte 0.
    InterfaceCall,
    /// What the elements of the new array are.
    NewArray,
    /// An index of two bytes, and a number of dimensions.
    ArrayOfArrays,
    /// An opcode with a local of two bytes.
    Wide,
    TableSwitch,
    LookupSwitch,
}

/// An instruction that has one index: of a local or of an entry of the constant pool.
#[derive(Clone, Copy, Debug)]
pub(crate) enum Indexed {
    LoadPool,
    Load(Reg),
    Store(Reg),
    GetStatic,
    PutStatic,
    GetField,
    PutField,
    Virtual,
    Special,
    Static,
    New,
    NewRefs,
    Cast,
    IsA,
}

impl Indexed {
    /// The instruction with this index.
    pub(crate) fn insn(self, index: u16) -> Insn
        ensures { result ≡ indexed_insn self index }
    {
        match self {
            Indexed::LoadPool => Insn::LoadPool(index),
            Indexed::Load(kind) => Insn::Load(kind, index),
            Indexed::Store(kind) => Insn::Store(kind, index),
            Indexed::GetStatic => Insn::GetStatic(index),
            Indexed::PutStatic => Insn::PutStatic(index),
            Indexed::GetField => Insn::GetField(index),
            Indexed::PutField => Insn::PutField(index),
            Indexed::Virtual => Insn::Virtual(index),
            Indexed::Special => Insn::Special(index),
            Indexed::Static => Insn::Static(index),
            Indexed::New => Insn::New(index),
            Indexed::NewRefs => Insn::NewRefs(index),
            Indexed::Cast => Insn::Cast(index),
            Indexed::IsA => Insn::IsA(index),
        }
    }
}

/// A jump.
#[derive(Clone, Copy, Debug)]
pub(crate) enum JumpKind {
    IfInt(Test),
    IfPair(Test),
    IfSame(bool),
    IfNull(bool),
    Goto,
}

impl JumpKind {
    /// The jump with this target.
    pub(crate) fn insn(self, target: u32) -> Insn
        ensures { result ≡ jump_insn self target }
    {
        match self {
            JumpKind::IfInt(test) => Insn::IfInt(test, target),
            JumpKind::IfPair(test) => Insn::IfPair(test, target),
            JumpKind::IfSame(same) => Insn::IfSame(same, target),
            JumpKind::IfNull(null) => Insn::IfNull(null, target),
            JumpKind::Goto => Insn::Goto(target),
        }
    }
}

/// The shape of the instruction that has an opcode.
pub(crate) fn shape_of(opcode: u8) -> InsnShape
    ensures { shape_reading result ≡ reading_of opcode }
{
    match opcode {
        opcodes::NOP..=opcodes::LDC2_W => constant_shape(opcode),
        opcodes::ILOAD..=opcodes::SALOAD => load_shape(opcode),
        opcodes::ISTORE..=opcodes::SWAP => store_shape(opcode),
        opcodes::IADD..=opcodes::LXOR => arithmetic_shape(opcode),
        opcodes::IINC..=opcodes::DCMPG => conversion_shape(opcode),
        opcodes::IFEQ..=opcodes::RETURN => jump_shape(opcode),
        opcodes::GETSTATIC..=opcodes::JSR_W => object_shape(opcode),
        _ => InsnShape::Unknown,
    }
}

/// What puts a constant on the stack, and nop.
fn constant_shape(opcode: u8) -> InsnShape
    ensures { shape_reading result ≡ listed_reading constant_opcodes opcode }
{
    match opcode {
        opcodes::NOP => InsnShape::Bare(Insn::Nop),
        opcodes::ACONST_NULL => InsnShape::Bare(Insn::Null),
        opcodes::ICONST_M1 => InsnShape::Bare(Insn::Const(-1)),
        opcodes::ICONST_0 => InsnShape::Bare(Insn::Const(0)),
        opcodes::ICONST_1 => InsnShape::Bare(Insn::Const(1)),
        opcodes::ICONST_2 => InsnShape::Bare(Insn::Const(2)),
        opcodes::ICONST_3 => InsnShape::Bare(Insn::Const(3)),
        opcodes::ICONST_4 => InsnShape::Bare(Insn::Const(4)),
        opcodes::ICONST_5 => InsnShape::Bare(Insn::Const(5)),
        opcodes::LCONST_0 => InsnShape::Bare(Insn::LongConst(0)),
        opcodes::LCONST_1 => InsnShape::Bare(Insn::LongConst(1)),
        opcodes::BIPUSH => InsnShape::SignedByte,
        opcodes::SIPUSH => InsnShape::SignedShort,
        opcodes::LDC => InsnShape::Byte(Indexed::LoadPool),
        opcodes::LDC_W | opcodes::LDC2_W => InsnShape::Short(Indexed::LoadPool),
        _ => InsnShape::LeftOut(opcode, 0),
    }
}

/// What puts a local or an element of an array on the stack.
fn load_shape(opcode: u8) -> InsnShape
    ensures { shape_reading result ≡ listed_reading load_opcodes opcode }
{
    match opcode {
        opcodes::ILOAD => InsnShape::Byte(Indexed::Load(Reg::Int)),
        opcodes::LLOAD => InsnShape::Byte(Indexed::Load(Reg::Long)),
        opcodes::FLOAD | opcodes::DLOAD => InsnShape::LeftOut(opcode, 1),
        opcodes::ALOAD => InsnShape::Byte(Indexed::Load(Reg::Ref)),
        opcodes::ILOAD_0 => InsnShape::Bare(Insn::Load(Reg::Int, 0)),
        opcodes::ILOAD_1 => InsnShape::Bare(Insn::Load(Reg::Int, 1)),
        opcodes::ILOAD_2 => InsnShape::Bare(Insn::Load(Reg::Int, 2)),
        opcodes::ILOAD_3 => InsnShape::Bare(Insn::Load(Reg::Int, 3)),
        opcodes::LLOAD_0 => InsnShape::Bare(Insn::Load(Reg::Long, 0)),
        opcodes::LLOAD_1 => InsnShape::Bare(Insn::Load(Reg::Long, 1)),
        opcodes::LLOAD_2 => InsnShape::Bare(Insn::Load(Reg::Long, 2)),
        opcodes::LLOAD_3 => InsnShape::Bare(Insn::Load(Reg::Long, 3)),
        opcodes::ALOAD_0 => InsnShape::Bare(Insn::Load(Reg::Ref, 0)),
        opcodes::ALOAD_1 => InsnShape::Bare(Insn::Load(Reg::Ref, 1)),
        opcodes::ALOAD_2 => InsnShape::Bare(Insn::Load(Reg::Ref, 2)),
        opcodes::ALOAD_3 => InsnShape::Bare(Insn::Load(Reg::Ref, 3)),
        opcodes::IALOAD => InsnShape::Bare(Insn::ArrayLoad(Elem::Int)),
        opcodes::LALOAD => InsnShape::Bare(Insn::ArrayLoad(Elem::Long)),
        opcodes::AALOAD => InsnShape::Bare(Insn::ArrayLoad(Elem::Ref)),
        opcodes::BALOAD => InsnShape::Bare(Insn::ArrayLoad(Elem::Byte)),
        opcodes::CALOAD => InsnShape::Bare(Insn::ArrayLoad(Elem::Char)),
        opcodes::SALOAD => InsnShape::Bare(Insn::ArrayLoad(Elem::Short)),
        _ => InsnShape::LeftOut(opcode, 0),
    }
}

/// What takes a value from the stack into a local or an element of an array, and what moves words
/// on the stack.
fn store_shape(opcode: u8) -> InsnShape
    ensures { shape_reading result ≡ listed_reading store_opcodes opcode }
{
    match opcode {
        opcodes::ISTORE => InsnShape::Byte(Indexed::Store(Reg::Int)),
        opcodes::LSTORE => InsnShape::Byte(Indexed::Store(Reg::Long)),
        opcodes::FSTORE | opcodes::DSTORE => InsnShape::LeftOut(opcode, 1),
        opcodes::ASTORE => InsnShape::Byte(Indexed::Store(Reg::Ref)),
        opcodes::ISTORE_0 => InsnShape::Bare(Insn::Store(Reg::Int, 0)),
        opcodes::ISTORE_1 => InsnShape::Bare(Insn::Store(Reg::Int, 1)),
        opcodes::ISTORE_2 => InsnShape::Bare(Insn::Store(Reg::Int, 2)),
        opcodes::ISTORE_3 => InsnShape::Bare(Insn::Store(Reg::Int, 3)),
        opcodes::LSTORE_0 => InsnShape::Bare(Insn::Store(Reg::Long, 0)),
        opcodes::LSTORE_1 => InsnShape::Bare(Insn::Store(Reg::Long, 1)),
        opcodes::LSTORE_2 => InsnShape::Bare(Insn::Store(Reg::Long, 2)),
        opcodes::LSTORE_3 => InsnShape::Bare(Insn::Store(Reg::Long, 3)),
        opcodes::ASTORE_0 => InsnShape::Bare(Insn::Store(Reg::Ref, 0)),
        opcodes::ASTORE_1 => InsnShape::Bare(Insn::Store(Reg::Ref, 1)),
        opcodes::ASTORE_2 => InsnShape::Bare(Insn::Store(Reg::Ref, 2)),
        opcodes::ASTORE_3 => InsnShape::Bare(Insn::Store(Reg::Ref, 3)),
        opcodes::IASTORE => InsnShape::Bare(Insn::ArrayStore(Elem::Int)),
        opcodes::LASTORE => InsnShape::Bare(Insn::ArrayStore(Elem::Long)),
        opcodes::AASTORE => InsnShape::Bare(Insn::ArrayStore(Elem::Ref)),
        opcodes::BASTORE => InsnShape::Bare(Insn::ArrayStore(Elem::Byte)),
        opcodes::CASTORE => InsnShape::Bare(Insn::ArrayStore(Elem::Char)),
        opcodes::SASTORE => InsnShape::Bare(Insn::ArrayStore(Elem::Short)),
        opcodes::POP => InsnShape::Bare(Insn::Pop),
        opcodes::POP2 => InsnShape::Bare(Insn::Pop2),
        opcodes::DUP => InsnShape::Bare(Insn::Dup),
        opcodes::DUP_X1 => InsnShape::Bare(Insn::DupX1),
        opcodes::DUP_X2 => InsnShape::Bare(Insn::DupX2),
        opcodes::DUP2 => InsnShape::Bare(Insn::Dup2),
        opcodes::DUP2_X1 => InsnShape::Bare(Insn::Dup2X1),
        opcodes::DUP2_X2 => InsnShape::Bare(Insn::Dup2X2),
        opcodes::SWAP => InsnShape::Bare(Insn::Swap),
        _ => InsnShape::LeftOut(opcode, 0),
    }
}

/// What computes with ints and longs.
fn arithmetic_shape(opcode: u8) -> InsnShape
    ensures { shape_reading result ≡ listed_reading arithmetic_opcodes opcode }
{
    match opcode {
        opcodes::IADD => InsnShape::Bare(Insn::IntOp(Op::Add)),
        opcodes::LADD => InsnShape::Bare(Insn::LongOp(Op::Add)),
        opcodes::ISUB => InsnShape::Bare(Insn::IntOp(Op::Sub)),
        opcodes::LSUB => InsnShape::Bare(Insn::LongOp(Op::Sub)),
        opcodes::IMUL => InsnShape::Bare(Insn::IntOp(Op::Mul)),
        opcodes::LMUL => InsnShape::Bare(Insn::LongOp(Op::Mul)),
        opcodes::IDIV => InsnShape::Bare(Insn::IntOp(Op::Div)),
        opcodes::LDIV => InsnShape::Bare(Insn::LongOp(Op::Div)),
        opcodes::IREM => InsnShape::Bare(Insn::IntOp(Op::Rem)),
        opcodes::LREM => InsnShape::Bare(Insn::LongOp(Op::Rem)),
        opcodes::INEG => InsnShape::Bare(Insn::IntNeg),
        opcodes::LNEG => InsnShape::Bare(Insn::LongNeg),
        opcodes::ISHL => InsnShape::Bare(Insn::IntShift(Shift::Left)),
        opcodes::LSHL => InsnShape::Bare(Insn::LongShift(Shift::Left)),
        opcodes::ISHR => InsnShape::Bare(Insn::IntShift(Shift::Right)),
        opcodes::LSHR => InsnShape::Bare(Insn::LongShift(Shift::Right)),
        opcodes::IUSHR => InsnShape::Bare(Insn::IntShift(Shift::RightZero)),
        opcodes::LUSHR => InsnShape::Bare(Insn::LongShift(Shift::RightZero)),
        opcodes::IAND => InsnShape::Bare(Insn::IntOp(Op::And)),
        opcodes::LAND => InsnShape::Bare(Insn::LongOp(Op::And)),
        opcodes::IOR => InsnShape::Bare(Insn::IntOp(Op::Or)),
        opcodes::LOR => InsnShape::Bare(Insn::LongOp(Op::Or)),
        opcodes::IXOR => InsnShape::Bare(Insn::IntOp(Op::Xor)),
        opcodes::LXOR => InsnShape::Bare(Insn::LongOp(Op::Xor)),
        _ => InsnShape::LeftOut(opcode, 0),
    }
}

/// iinc, and what converts or compares numbers.
fn conversion_shape(opcode: u8) -> InsnShape
    ensures { shape_reading result ≡ listed_reading conversion_opcodes opcode }
{
    match opcode {
        opcodes::IINC => InsnShape::Increment,
        opcodes::I2L => InsnShape::Bare(Insn::Convert(Conv::IntToLong)),
        opcodes::L2I => InsnShape::Bare(Insn::Convert(Conv::LongToInt)),
        opcodes::I2B => InsnShape::Bare(Insn::Convert(Conv::IntToByte)),
        opcodes::I2C => InsnShape::Bare(Insn::Convert(Conv::IntToChar)),
        opcodes::I2S => InsnShape::Bare(Insn::Convert(Conv::IntToShort)),
        opcodes::LCMP => InsnShape::Bare(Insn::LongCompare),
        _ => InsnShape::LeftOut(opcode, 0),
    }
}

/// What goes on elsewhere in the method, or leaves it.
fn jump_shape(opcode: u8) -> InsnShape
    ensures { shape_reading result ≡ listed_reading jump_opcodes opcode }
{
    match opcode {
        opcodes::IFEQ => InsnShape::Jump(JumpKind::IfInt(Test::Eq)),
        opcodes::IFNE => InsnShape::Jump(JumpKind::IfInt(Test::Ne)),
        opcodes::IFLT => InsnShape::Jump(JumpKind::IfInt(Test::Lt)),
        opcodes::IFGE => InsnShape::Jump(JumpKind::IfInt(Test::Ge)),
        opcodes::IFGT => InsnShape::Jump(JumpKind::IfInt(Test::Gt)),
        opcodes::IFLE => InsnShape::Jump(JumpKind::IfInt(Test::Le)),
        opcodes::IF_ICMPEQ => InsnShape::Jump(JumpKind::IfPair(Test::Eq)),
        opcodes::IF_ICMPNE => InsnShape::Jump(JumpKind::IfPair(Test::Ne)),
        opcodes::IF_ICMPLT => InsnShape::Jump(JumpKind::IfPair(Test::Lt)),
        opcodes::IF_ICMPGE => InsnShape::Jump(JumpKind::IfPair(Test::Ge)),
        opcodes::IF_ICMPGT => InsnShape::Jump(JumpKind::IfPair(Test::Gt)),
        opcodes::IF_ICMPLE => InsnShape::Jump(JumpKind::IfPair(Test::Le)),
        opcodes::IF_ACMPEQ => InsnShape::Jump(JumpKind::IfSame(true)),
        opcodes::IF_ACMPNE => InsnShape::Jump(JumpKind::IfSame(false)),
        opcodes::GOTO => InsnShape::Jump(JumpKind::Goto),
        opcodes::JSR => InsnShape::LeftOut(opcode, 2),
        opcodes::RET => InsnShape::LeftOut(opcode, 1),
        opcodes::TABLESWITCH => InsnShape::TableSwitch,
        opcodes::LOOKUPSWITCH => InsnShape::LookupSwitch,
        opcodes::IRETURN => InsnShape::Bare(Insn::Return(Some(Reg::Int))),
        opcodes::LRETURN => InsnShape::Bare(Insn::Return(Some(Reg::Long))),
        opcodes::ARETURN => InsnShape::Bare(Insn::Return(Some(Reg::Ref))),
        opcodes::RETURN => InsnShape::Bare(Insn::Return(None)),
        _ => InsnShape::LeftOut(opcode, 0),
    }
}

/// What names a field, a method or a class, and the jumps and the wide forms after these.
fn object_shape(opcode: u8) -> InsnShape
    ensures { shape_reading result ≡ listed_reading object_opcodes opcode }
{
    match opcode {
        opcodes::GETSTATIC => InsnShape::Short(Indexed::GetStatic),
        opcodes::PUTSTATIC => InsnShape::Short(Indexed::PutStatic),
        opcodes::GETFIELD => InsnShape::Short(Indexed::GetField),
        opcodes::PUTFIELD => InsnShape::Short(Indexed::PutField),
        opcodes::INVOKEVIRTUAL => InsnShape::Short(Indexed::Virtual),
        opcodes::INVOKESPECIAL => InsnShape::Short(Indexed::Special),
        opcodes::INVOKESTATIC => InsnShape::Short(Indexed::Static),
        opcodes::INVOKEINTERFACE => InsnShape::InterfaceCall,
        opcodes::INVOKEDYNAMIC => InsnShape::LeftOut(opcode, 4),
        opcodes::NEW => InsnShape::Short(Indexed::New),
        opcodes::NEWARRAY => InsnShape::NewArray,
        opcodes::ANEWARRAY => InsnShape::Short(Indexed::NewRefs),
        opcodes::ARRAYLENGTH => InsnShape::Bare(Insn::Length),
        opcodes::ATHROW => InsnShape::Bare(Insn::Throw),
        opcodes::CHECKCAST => InsnShape::Short(Indexed::Cast),
        opcodes::INSTANCEOF => InsnShape::Short(Indexed::IsA),
        opcodes::WIDE => InsnShape::Wide,
        opcodes::MULTIANEWARRAY => InsnShape::ArrayOfArrays,
        opcodes::IFNULL => InsnShape::Jump(JumpKind::IfNull(true)),
        opcodes::IFNONNULL => InsnShape::Jump(JumpKind::IfNull(false)),
        opcodes::GOTO_W => InsnShape::LongJump,
        opcodes::JSR_W => InsnShape::LeftOut(opcode, 4),
        _ => InsnShape::LeftOut(opcode, 0),
    }
}
