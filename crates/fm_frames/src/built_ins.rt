// The numbers of built-in classes, which come first in each program.

use fm_base::ClassId;

/// `java/lang/String`.
pub const STRING: ClassId = ClassId(1);

/// `java/lang/StringBuilder`.
pub const STRING_BUILDER: ClassId = ClassId(2);

/// `java/lang/StringBuffer`.
pub const STRING_BUFFER: ClassId = ClassId(3);

/// `java/io/PrintStream`.
pub const PRINT_STREAM: ClassId = ClassId(5);

/// `java/io/InputStream`.
pub const INPUT_STREAM: ClassId = ClassId(6);

/// `java/lang/Throwable`.
pub const THROWABLE: ClassId = ClassId(7);

/// `java/lang/ArithmeticException`.
pub const ARITHMETIC_EXCEPTION: ClassId = ClassId(13);

/// `java/lang/ArrayStoreException`.
pub const ARRAY_STORE_EXCEPTION: ClassId = ClassId(14);

/// `java/lang/ClassCastException`.
pub const CLASS_CAST_EXCEPTION: ClassId = ClassId(15);

/// `java/lang/NegativeArraySizeException`.
pub const NEGATIVE_ARRAY_SIZE_EXCEPTION: ClassId = ClassId(17);

/// `java/lang/NullPointerException`.
pub const NULL_POINTER_EXCEPTION: ClassId = ClassId(18);

/// `java/lang/ArrayIndexOutOfBoundsException`.
pub const ARRAY_INDEX_EXCEPTION: ClassId = ClassId(22);

/// `java/lang/StringIndexOutOfBoundsException`.
pub const STRING_INDEX_EXCEPTION: ClassId = ClassId(23);

/// `java/lang/IncompatibleClassChangeError`.
pub const CLASS_CHANGE_ERROR: ClassId = ClassId(25);

/// `java/lang/Class`.
pub const CLASS: ClassId = ClassId(29);

/// `java/lang/Cloneable`.
pub const CLONEABLE: ClassId = ClassId(26);

/// `java/lang/CloneNotSupportedException`.
pub const CLONE_NOT_SUPPORTED_EXCEPTION: ClassId = ClassId(28);
