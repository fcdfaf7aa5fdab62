//! The declarations of all built-in classes, a line for each, against a list that was made apart from this crate.

use base_classes::built_in;
use code_model::{Arg, Instr, decode};
use const_pool::{Attribute, ClassFile, CodeAttribute, Const, Member};
use jf_bytes::Text16;
use std::alloc::Global;
use std::test::Fail;

/// A class with its superclass and interfaces; then a line for each field and each method, with what it has for a body,
/// the flags 1 public, 2 private, 4 protected and 8 static, the name and the descriptor. Behind a method with code come
/// its max_stack and max_locals, and a line for each instruction: the opcode, and how far it jumps or what it names.
static MEMBERS: &str = "\
class java/lang/Object - 
  native 0001 <init> ()V
  native 0001 equals (Ljava/lang/Object;)Z
  native 0001 hashCode ()I
  native 0001 toString ()Ljava/lang/String;
  native 0001 getClass ()Ljava/lang/Class;
  native 0004 clone ()Ljava/lang/Object;
interface java/lang/Cloneable java/lang/Object 
interface java/io/Serializable java/lang/Object 
interface java/lang/Comparable java/lang/Object 
  abstract 0001 compareTo (Ljava/lang/Object;)I
interface java/lang/Runnable java/lang/Object 
  abstract 0001 run ()V
interface java/lang/CharSequence java/lang/Object 
  abstract 0001 length ()I
  abstract 0001 charAt (I)C
  abstract 0001 toString ()Ljava/lang/String;
class java/lang/Class java/lang/Object 
  native 0001 getName ()Ljava/lang/String;
  native 0001 desiredAssertionStatus ()Z
class java/lang/String java/lang/Object java/lang/Comparable java/lang/CharSequence java/io/Serializable
  native 0001 <init> ()V
  native 0001 <init> (Ljava/lang/String;)V
  native 0001 <init> ([C)V
  native 0001 <init> ([CII)V
  native 0001 length ()I
  native 0001 charAt (I)C
  native 0001 isEmpty ()Z
  native 0001 equals (Ljava/lang/Object;)Z
  native 0001 hashCode ()I
  native 0001 toString ()Ljava/lang/String;
  native 0001 compareTo (Ljava/lang/String;)I
  native 0001 compareTo (Ljava/lang/Object;)I
  native 0001 concat (Ljava/lang/String;)Ljava/lang/String;
  native 0001 substring (I)Ljava/lang/String;
  native 0001 substring (II)Ljava/lang/String;
  native 0001 indexOf (I)I
  native 0001 startsWith (Ljava/lang/String;)Z
  native 0001 intern ()Ljava/lang/String;
  native 0001 toCharArray ()[C
  native 0009 valueOf (I)Ljava/lang/String;
  native 0009 valueOf (J)Ljava/lang/String;
  native 0009 valueOf (C)Ljava/lang/String;
  native 0009 valueOf (Z)Ljava/lang/String;
  native 0009 valueOf ([C)Ljava/lang/String;
  code 0009 valueOf (Ljava/lang/Object;)Ljava/lang/String;
    1 1
    42
    199 6
    18 null
    176
    42
    182 java/lang/Object.toString()Ljava/lang/String;
    176
class java/lang/StringBuilder java/lang/Object java/lang/CharSequence
  native 0001 <init> ()V
  native 0001 <init> (I)V
  native 0001 <init> (Ljava/lang/String;)V
  native 0001 append (Ljava/lang/String;)Ljava/lang/StringBuilder;
  native 0001 append (I)Ljava/lang/StringBuilder;
  native 0001 append (J)Ljava/lang/StringBuilder;
  native 0001 append (C)Ljava/lang/StringBuilder;
  native 0001 append (Z)Ljava/lang/StringBuilder;
  native 0001 append ([C)Ljava/lang/StringBuilder;
  code 0001 append (Ljava/lang/Object;)Ljava/lang/StringBuilder;
    2 2
    42
    43
    184 java/lang/String.valueOf(Ljava/lang/Object;)Ljava/lang/String;
    182 java/lang/StringBuilder.append(Ljava/lang/String;)Ljava/lang/StringBuilder;
    176
  native 0001 length ()I
  native 0001 charAt (I)C
  native 0001 setCharAt (IC)V
  native 0001 setLength (I)V
  native 0001 deleteCharAt (I)Ljava/lang/StringBuilder;
  native 0001 toString ()Ljava/lang/String;
class java/lang/StringBuffer java/lang/Object java/lang/CharSequence
  native 0001 <init> ()V
  native 0001 <init> (I)V
  native 0001 <init> (Ljava/lang/String;)V
  native 0001 append (Ljava/lang/String;)Ljava/lang/StringBuffer;
  native 0001 append (I)Ljava/lang/StringBuffer;
  native 0001 append (J)Ljava/lang/StringBuffer;
  native 0001 append (C)Ljava/lang/StringBuffer;
  native 0001 append (Z)Ljava/lang/StringBuffer;
  native 0001 append ([C)Ljava/lang/StringBuffer;
  code 0001 append (Ljava/lang/Object;)Ljava/lang/StringBuffer;
    2 2
    42
    43
    184 java/lang/String.valueOf(Ljava/lang/Object;)Ljava/lang/String;
    182 java/lang/StringBuffer.append(Ljava/lang/String;)Ljava/lang/StringBuffer;
    176
  native 0001 length ()I
  native 0001 charAt (I)C
  native 0001 setCharAt (IC)V
  native 0001 setLength (I)V
  native 0001 deleteCharAt (I)Ljava/lang/StringBuffer;
  native 0001 toString ()Ljava/lang/String;
class java/io/InputStream java/lang/Object 
  native 0001 read ()I
  native 0001 close ()V
class java/io/PrintStream java/lang/Object 
  native 0001 print (Z)V
  native 0001 print (C)V
  native 0001 print (I)V
  native 0001 print (J)V
  native 0001 print (Ljava/lang/String;)V
  native 0001 print ([C)V
  code 0001 print (Ljava/lang/Object;)V
    2 2
    42
    43
    184 java/lang/String.valueOf(Ljava/lang/Object;)Ljava/lang/String;
    182 java/io/PrintStream.print(Ljava/lang/String;)V
    177
  native 0001 println (Z)V
  native 0001 println (C)V
  native 0001 println (I)V
  native 0001 println (J)V
  native 0001 println (Ljava/lang/String;)V
  native 0001 println ([C)V
  code 0001 println (Ljava/lang/Object;)V
    2 2
    42
    43
    184 java/lang/String.valueOf(Ljava/lang/Object;)Ljava/lang/String;
    182 java/io/PrintStream.println(Ljava/lang/String;)V
    177
  native 0001 println ()V
  native 0001 flush ()V
class java/lang/System java/lang/Object 
  field 0009 in Ljava/io/InputStream;
  field 0009 out Ljava/io/PrintStream;
  field 0009 err Ljava/io/PrintStream;
  native 0009 exit (I)V
  native 0009 arraycopy (Ljava/lang/Object;ILjava/lang/Object;II)V
  native 0009 identityHashCode (Ljava/lang/Object;)I
abstract java/lang/Number java/lang/Object 
  native 0001 <init> ()V
  abstract 0001 intValue ()I
  abstract 0001 longValue ()J
class java/lang/Integer java/lang/Number java/lang/Comparable
  field 0002 value I
  native 0009 valueOf (I)Ljava/lang/Integer;
  native 0009 parseInt (Ljava/lang/String;)I
  native 0009 toString (I)Ljava/lang/String;
  native 0009 toHexString (I)Ljava/lang/String;
  native 0001 intValue ()I
  native 0001 longValue ()J
  native 0001 equals (Ljava/lang/Object;)Z
  native 0001 hashCode ()I
  native 0001 toString ()Ljava/lang/String;
  native 0001 compareTo (Ljava/lang/Object;)I
class java/lang/Long java/lang/Number java/lang/Comparable
  field 0002 value J
  native 0009 valueOf (J)Ljava/lang/Long;
  native 0009 parseLong (Ljava/lang/String;)J
  native 0009 toString (J)Ljava/lang/String;
  native 0001 intValue ()I
  native 0001 longValue ()J
  native 0001 equals (Ljava/lang/Object;)Z
  native 0001 hashCode ()I
  native 0001 toString ()Ljava/lang/String;
  native 0001 compareTo (Ljava/lang/Object;)I
class java/lang/Character java/lang/Object 
  field 0002 value C
  native 0009 valueOf (C)Ljava/lang/Character;
  native 0009 toString (C)Ljava/lang/String;
  native 0009 isDigit (C)Z
  native 0009 isLetter (C)Z
  native 0009 isWhitespace (C)Z
  native 0001 charValue ()C
  native 0001 equals (Ljava/lang/Object;)Z
  native 0001 hashCode ()I
  native 0001 toString ()Ljava/lang/String;
class java/lang/Boolean java/lang/Object 
  field 0002 value Z
  native 0009 valueOf (Z)Ljava/lang/Boolean;
  native 0009 parseBoolean (Ljava/lang/String;)Z
  native 0001 booleanValue ()Z
  native 0001 equals (Ljava/lang/Object;)Z
  native 0001 hashCode ()I
  native 0001 toString ()Ljava/lang/String;
class java/lang/Math java/lang/Object 
  native 0009 abs (I)I
  native 0009 max (II)I
  native 0009 min (II)I
  native 0009 abs (J)J
  native 0009 max (JJ)J
  native 0009 min (JJ)J
abstract java/lang/Enum java/lang/Object java/lang/Comparable java/io/Serializable
  field 0002 name Ljava/lang/String;
  field 0002 ordinal I
  native 0004 <init> (Ljava/lang/String;I)V
  native 0001 name ()Ljava/lang/String;
  native 0001 ordinal ()I
  native 0001 toString ()Ljava/lang/String;
  native 0001 equals (Ljava/lang/Object;)Z
  native 0001 hashCode ()I
  native 0001 compareTo (Ljava/lang/Enum;)I
  native 0001 compareTo (Ljava/lang/Object;)I
class java/lang/Throwable java/lang/Object java/io/Serializable
  field 0002 message Ljava/lang/String;
  field 0002 cause Ljava/lang/Throwable;
  native 0001 <init> ()V
  native 0001 <init> (Ljava/lang/String;)V
  native 0001 <init> (Ljava/lang/String;Ljava/lang/Throwable;)V
  native 0001 <init> (Ljava/lang/Throwable;)V
  native 0001 getMessage ()Ljava/lang/String;
  native 0001 getCause ()Ljava/lang/Throwable;
  code 0001 toString ()Ljava/lang/String;
    2 3
    42
    182 java/lang/Object.getClass()Ljava/lang/Class;
    182 java/lang/Class.getName()Ljava/lang/String;
    76
    42
    182 java/lang/Throwable.getMessage()Ljava/lang/String;
    77
    44
    199 5
    43
    176
    43
    18 : 
    182 java/lang/String.concat(Ljava/lang/String;)Ljava/lang/String;
    44
    182 java/lang/String.concat(Ljava/lang/String;)Ljava/lang/String;
    176
  code 0001 printStackTrace ()V
    2 1
    178 java/lang/System.errLjava/io/PrintStream;
    42
    182 java/io/PrintStream.println(Ljava/lang/Object;)V
    177
class java/lang/Exception java/lang/Throwable 
  native 0001 <init> ()V
  native 0001 <init> (Ljava/lang/String;)V
  native 0001 <init> (Ljava/lang/String;Ljava/lang/Throwable;)V
  native 0001 <init> (Ljava/lang/Throwable;)V
class java/lang/Error java/lang/Throwable 
  native 0001 <init> ()V
  native 0001 <init> (Ljava/lang/String;)V
  native 0001 <init> (Ljava/lang/String;Ljava/lang/Throwable;)V
  native 0001 <init> (Ljava/lang/Throwable;)V
class java/lang/RuntimeException java/lang/Exception 
  native 0001 <init> ()V
  native 0001 <init> (Ljava/lang/String;)V
  native 0001 <init> (Ljava/lang/String;Ljava/lang/Throwable;)V
  native 0001 <init> (Ljava/lang/Throwable;)V
class java/lang/CloneNotSupportedException java/lang/Exception 
  native 0001 <init> ()V
  native 0001 <init> (Ljava/lang/String;)V
  native 0001 <init> (Ljava/lang/String;Ljava/lang/Throwable;)V
  native 0001 <init> (Ljava/lang/Throwable;)V
class java/lang/ClassNotFoundException java/lang/Exception 
  native 0001 <init> ()V
  native 0001 <init> (Ljava/lang/String;)V
  native 0001 <init> (Ljava/lang/String;Ljava/lang/Throwable;)V
  native 0001 <init> (Ljava/lang/Throwable;)V
class java/io/IOException java/lang/Exception 
  native 0001 <init> ()V
  native 0001 <init> (Ljava/lang/String;)V
  native 0001 <init> (Ljava/lang/String;Ljava/lang/Throwable;)V
  native 0001 <init> (Ljava/lang/Throwable;)V
class java/lang/ArithmeticException java/lang/RuntimeException 
  native 0001 <init> ()V
  native 0001 <init> (Ljava/lang/String;)V
  native 0001 <init> (Ljava/lang/String;Ljava/lang/Throwable;)V
  native 0001 <init> (Ljava/lang/Throwable;)V
class java/lang/ArrayStoreException java/lang/RuntimeException 
  native 0001 <init> ()V
  native 0001 <init> (Ljava/lang/String;)V
  native 0001 <init> (Ljava/lang/String;Ljava/lang/Throwable;)V
  native 0001 <init> (Ljava/lang/Throwable;)V
class java/lang/ClassCastException java/lang/RuntimeException 
  native 0001 <init> ()V
  native 0001 <init> (Ljava/lang/String;)V
  native 0001 <init> (Ljava/lang/String;Ljava/lang/Throwable;)V
  native 0001 <init> (Ljava/lang/Throwable;)V
class java/lang/IllegalArgumentException java/lang/RuntimeException 
  native 0001 <init> ()V
  native 0001 <init> (Ljava/lang/String;)V
  native 0001 <init> (Ljava/lang/String;Ljava/lang/Throwable;)V
  native 0001 <init> (Ljava/lang/Throwable;)V
class java/lang/IllegalStateException java/lang/RuntimeException 
  native 0001 <init> ()V
  native 0001 <init> (Ljava/lang/String;)V
  native 0001 <init> (Ljava/lang/String;Ljava/lang/Throwable;)V
  native 0001 <init> (Ljava/lang/Throwable;)V
class java/lang/IndexOutOfBoundsException java/lang/RuntimeException 
  native 0001 <init> ()V
  native 0001 <init> (Ljava/lang/String;)V
  native 0001 <init> (Ljava/lang/String;Ljava/lang/Throwable;)V
  native 0001 <init> (Ljava/lang/Throwable;)V
class java/lang/NegativeArraySizeException java/lang/RuntimeException 
  native 0001 <init> ()V
  native 0001 <init> (Ljava/lang/String;)V
  native 0001 <init> (Ljava/lang/String;Ljava/lang/Throwable;)V
  native 0001 <init> (Ljava/lang/Throwable;)V
class java/lang/NullPointerException java/lang/RuntimeException 
  native 0001 <init> ()V
  native 0001 <init> (Ljava/lang/String;)V
  native 0001 <init> (Ljava/lang/String;Ljava/lang/Throwable;)V
  native 0001 <init> (Ljava/lang/Throwable;)V
class java/lang/UnsupportedOperationException java/lang/RuntimeException 
  native 0001 <init> ()V
  native 0001 <init> (Ljava/lang/String;)V
  native 0001 <init> (Ljava/lang/String;Ljava/lang/Throwable;)V
  native 0001 <init> (Ljava/lang/Throwable;)V
class java/lang/NumberFormatException java/lang/IllegalArgumentException 
  native 0001 <init> ()V
  native 0001 <init> (Ljava/lang/String;)V
  native 0001 <init> (Ljava/lang/String;Ljava/lang/Throwable;)V
  native 0001 <init> (Ljava/lang/Throwable;)V
class java/lang/ArrayIndexOutOfBoundsException java/lang/IndexOutOfBoundsException 
  native 0001 <init> ()V
  native 0001 <init> (Ljava/lang/String;)V
  native 0001 <init> (Ljava/lang/String;Ljava/lang/Throwable;)V
  native 0001 <init> (Ljava/lang/Throwable;)V
class java/lang/StringIndexOutOfBoundsException java/lang/IndexOutOfBoundsException 
  native 0001 <init> ()V
  native 0001 <init> (Ljava/lang/String;)V
  native 0001 <init> (Ljava/lang/String;Ljava/lang/Throwable;)V
  native 0001 <init> (Ljava/lang/Throwable;)V
class java/lang/AssertionError java/lang/Error 
  native 0001 <init> ()V
  native 0001 <init> (Ljava/lang/String;)V
  native 0001 <init> (Ljava/lang/String;Ljava/lang/Throwable;)V
  native 0001 <init> (Ljava/lang/Throwable;)V
  native 0001 <init> (Ljava/lang/Object;)V
class java/lang/LinkageError java/lang/Error 
  native 0001 <init> ()V
  native 0001 <init> (Ljava/lang/String;)V
  native 0001 <init> (Ljava/lang/String;Ljava/lang/Throwable;)V
  native 0001 <init> (Ljava/lang/Throwable;)V
class java/lang/VirtualMachineError java/lang/Error 
  native 0001 <init> ()V
  native 0001 <init> (Ljava/lang/String;)V
  native 0001 <init> (Ljava/lang/String;Ljava/lang/Throwable;)V
  native 0001 <init> (Ljava/lang/Throwable;)V
class java/lang/NoClassDefFoundError java/lang/LinkageError 
  native 0001 <init> ()V
  native 0001 <init> (Ljava/lang/String;)V
  native 0001 <init> (Ljava/lang/String;Ljava/lang/Throwable;)V
  native 0001 <init> (Ljava/lang/Throwable;)V
class java/lang/ExceptionInInitializerError java/lang/LinkageError 
  native 0001 <init> ()V
  native 0001 <init> (Ljava/lang/String;)V
  native 0001 <init> (Ljava/lang/String;Ljava/lang/Throwable;)V
  native 0001 <init> (Ljava/lang/Throwable;)V
class java/lang/IncompatibleClassChangeError java/lang/LinkageError 
  native 0001 <init> ()V
  native 0001 <init> (Ljava/lang/String;)V
  native 0001 <init> (Ljava/lang/String;Ljava/lang/Throwable;)V
  native 0001 <init> (Ljava/lang/Throwable;)V
class java/lang/ClassCircularityError java/lang/LinkageError 
  native 0001 <init> ()V
  native 0001 <init> (Ljava/lang/String;)V
  native 0001 <init> (Ljava/lang/String;Ljava/lang/Throwable;)V
  native 0001 <init> (Ljava/lang/Throwable;)V
class java/lang/UnsatisfiedLinkError java/lang/LinkageError 
  native 0001 <init> ()V
  native 0001 <init> (Ljava/lang/String;)V
  native 0001 <init> (Ljava/lang/String;Ljava/lang/Throwable;)V
  native 0001 <init> (Ljava/lang/Throwable;)V
class java/lang/AbstractMethodError java/lang/IncompatibleClassChangeError 
  native 0001 <init> ()V
  native 0001 <init> (Ljava/lang/String;)V
  native 0001 <init> (Ljava/lang/String;Ljava/lang/Throwable;)V
  native 0001 <init> (Ljava/lang/Throwable;)V
class java/lang/InstantiationError java/lang/IncompatibleClassChangeError 
  native 0001 <init> ()V
  native 0001 <init> (Ljava/lang/String;)V
  native 0001 <init> (Ljava/lang/String;Ljava/lang/Throwable;)V
  native 0001 <init> (Ljava/lang/Throwable;)V
class java/lang/NoSuchFieldError java/lang/IncompatibleClassChangeError 
  native 0001 <init> ()V
  native 0001 <init> (Ljava/lang/String;)V
  native 0001 <init> (Ljava/lang/String;Ljava/lang/Throwable;)V
  native 0001 <init> (Ljava/lang/Throwable;)V
class java/lang/NoSuchMethodError java/lang/IncompatibleClassChangeError 
  native 0001 <init> ()V
  native 0001 <init> (Ljava/lang/String;)V
  native 0001 <init> (Ljava/lang/String;Ljava/lang/Throwable;)V
  native 0001 <init> (Ljava/lang/Throwable;)V
class java/lang/OutOfMemoryError java/lang/VirtualMachineError 
  native 0001 <init> ()V
  native 0001 <init> (Ljava/lang/String;)V
  native 0001 <init> (Ljava/lang/String;Ljava/lang/Throwable;)V
  native 0001 <init> (Ljava/lang/Throwable;)V
class java/lang/StackOverflowError java/lang/VirtualMachineError 
  native 0001 <init> ()V
  native 0001 <init> (Ljava/lang/String;)V
  native 0001 <init> (Ljava/lang/String;Ljava/lang/Throwable;)V
  native 0001 <init> (Ljava/lang/Throwable;)V
";

fn members() -> &'static str {
    MEMBERS
}

/// Puts a word. One that there is no memory for is missed in the list.
fn put(out: &mut Vec<u16>, word: &str) {
    for byte in word.as_bytes() {
        let _ = out.push(u16::from(*byte));
    }
}

/// A text, or a hyphen where there is none.
fn put_text(out: &mut Vec<u16>, text: Option<&Text16>) {
    match text {
        Some(text) => {
            let _ = out.extend_from_slice(text.units());
        }
        None => put(out, "-"),
    }
}

fn put_number(alloc: Global, out: &mut Vec<u16>, number: u16) {
    if let Ok(digits) = number.to_string(alloc) {
        put(out, &digits);
    }
}

/// A class's or a member's word, by all of its flags. A member's has the lowest four bits behind it.
fn word_of(access: u16, is_field: bool) -> &'static str {
    match (access, is_field) {
        (0x0021 | 0x0031, _) => "class ",
        (0x0421, _) => "abstract ",
        (0x0601, _) => "interface ",
        (0x0002, true) => "  field 0002 ",
        (0x0009, true) => "  field 0009 ",
        (0x0001, false) => "  code 0001 ",
        (0x0009, false) => "  code 0009 ",
        (0x0101, false) => "  native 0001 ",
        (0x0104, false) => "  native 0004 ",
        (0x0109, false) => "  native 0009 ",
        (0x0401, false) => "  abstract 0001 ",
        _ => "other flags ",
    }
}

/// The string or the member at the index.
fn put_named(out: &mut Vec<u16>, class: &ClassFile, index: u16) {
    if let Some(Const::Text(text)) = class.pool.get(index) {
        return put_text(out, class.pool.text(*text).ok());
    }
    if let Ok(member) = class.pool.member(index) {
        put_text(out, Some(member.class));
        put(out, ".");
        put_text(out, Some(member.name));
        put_text(out, Some(member.descriptor));
    }
}

fn put_instruction(alloc: Global, out: &mut Vec<u16>, class: &ClassFile, instr: &Instr) {
    put(out, "    ");
    put_number(alloc, out, u16::from(instr.op));
    match &instr.arg {
        Arg::Plain => {}
        Arg::Target(target) => {
            put(out, " ");
            put_number(alloc, out, target.saturating_sub(instr.at));
        }
        Arg::Pool(index) => {
            put(out, " ");
            put_named(out, class, *index);
        }
        _ => put(out, " another operand"),
    }
    put(out, "\n");
}

/// The limits of a code, and the instructions that its bytes are, one behind the other.
fn put_code(alloc: Global, out: &mut Vec<u16>, class: &ClassFile, code: &CodeAttribute) {
    put(out, "    ");
    put_number(alloc, out, code.max_stack);
    put(out, " ");
    put_number(alloc, out, code.max_locals);
    put(out, "\n");
    let bytes = code.code.as_slice();
    if bytes.is_empty() || bytes.len() > 65535 {
        return;
    }
    if let Ok(decoded) = decode(alloc, bytes) {
        for instr in decoded.instrs.as_slice() {
            put_instruction(alloc, out, class, instr);
        }
    }
}

fn put_class(out: &mut Vec<u16>, class: &ClassFile) {
    put(out, word_of(class.access, false));
    put_text(out, class.pool.class_name(class.this_class).ok());
    put(out, " ");
    put_text(out, class.pool.class_name(class.super_class).ok());
    put(out, if class.interfaces.is_empty() { " " } else { "" });
    for index in class.interfaces.as_slice() {
        put(out, " ");
        put_text(out, class.pool.class_name(*index).ok());
    }
    put(out, "\n");
}

fn put_members(
    alloc: Global,
    out: &mut Vec<u16>,
    class: &ClassFile,
    members: &[Member],
    are_fields: bool,
) {
    for member in members {
        put(out, word_of(member.access, are_fields));
        put_text(out, class.pool.text(member.name).ok());
        put(out, " ");
        put_text(out, class.pool.text(member.descriptor).ok());
        put(out, "\n");
        if let Some(Attribute::Code(_, code)) = member.attributes.get(0) {
            put_code(alloc, out, class, code);
        }
    }
}

#[test]
fn each_member_is_the_lists(rt: HostRuntime) -> Result<(), Fail> {
    let alloc = rt.alloc();
    let mut out = Vec::new(alloc);
    for class in built_in(alloc)?.as_slice() {
        put_class(&mut out, class);
        put_members(alloc, &mut out, class, class.fields.as_slice(), true);
        put_members(alloc, &mut out, class, class.methods.as_slice(), false);
    }
    assert!(rt; Text16::new(out).is_bytes(members().as_bytes()));
    Ok(())
}
