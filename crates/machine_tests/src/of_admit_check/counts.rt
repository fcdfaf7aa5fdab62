//! A class with as many methods with Code as a program may have, and with one more; and as many classes as it may have.

ghost use Rattle.std.specs.Prelude.{◌≤◌, length, IfSome};
ghost use Rattle.std.specs.List.{AllByRecursion};
ghost use Rattle.const_pool.specs.ClassFile.{IsClassFile};

use admit_check::admit;
use class_reader::read_class;
use code_admission::AdmitError;
use const_pool::ClassFile;
use jf_bytes::{NoMemory, Seq, Text16};
use plan_text::Plan;
use std::alloc::Global;
use std::test::Fail;

fn put(bytes: &mut Vec<u8>, more: &[u8]) -> Result<(), NoMemory> {
    bytes.extend_from_slice(more)?;
    Ok(())
}

/// The class of these bytes; None where there is no memory, or they are no class file.
fn class(alloc: Global, bytes: &[u8]) -> Option<ClassFile>
    ensures { IfSome result IsClassFile }
{
    read_class(alloc, bytes).ok()
}

/// The list of one class.
fn list(alloc: Global, bytes: &[u8]) -> Option<Seq<ClassFile>>
    ensures formed { IfSome result (AllByRecursion IsClassFile) }
    ensures count { IfSome result (λ classes. length classes ≤ 4096) }
{
    let mut classes = Seq::new(alloc);
    classes.push(class(alloc, bytes)?).ok()?;
    Some(classes)
}

/// Why a program of at most 4,096 classes with the main class A is refused.
fn fault_of(alloc: Global, classes: Seq<ClassFile>) -> Result<Option<AdmitError>, Fail>
    requires formed { AllByRecursion IsClassFile classes }
    requires count { length classes ≤ 4096 }
{
    let main = Text16::new(Vec::from_slice(alloc, &[65])?);
    let plan = Plan {
        main: None,
        args: Seq::new(alloc),
        budget: None,
        heap: None,
        actions: Seq::new(alloc),
    };
    Ok(admit(alloc, classes, &main, &plan).err())
}

/// Version 49.0.
const HEADING: &[u8] = b"\xCA\xFE\xBA\xBE\0\0\0\x31";

/// The first six entries of the pool: C, the class C, Object and its class, `Code` and `()V`.
const ENTRIES: &[u8] =
    b"\x01\0\x01C\x07\0\x01\x01\0\x10java/lang/Object\x07\0\x03\x01\0\x04Code\x01\0\x03()V";

/// What stands behind the pool, up to the number of methods.
const TO_METHODS: &[u8] = &[0, 0x21, 0, 2, 0, 4, 0, 0, 0, 0];

/// A Code that returns.
const CODE: &[u8] = &[0, 5, 0, 0, 0, 13, 0, 0, 0, 0, 0, 0, 0, 1, 0xB1, 0, 0, 0, 0];

fn letter(number: u16) -> u8 {
    b'`' + (number % 32) as u8
}

/// Puts so many names of three letters, none twice.
fn put_names(bytes: &mut Vec<u8>, count: u16) -> Result<(), NoMemory> {
    for number in 0..count {
        let name = [letter(number / 1024), letter(number / 32), letter(number)];
        put(bytes, &[1, 0, 3])?;
        put(bytes, &name)?;
    }
    Ok(())
}

/// Puts a static method of each name.
fn put_methods(bytes: &mut Vec<u8>, count: u16) -> Result<(), NoMemory> {
    for number in 0..count {
        let [high, low] = number.saturating_add(7).to_be_bytes();
        put(bytes, &[0, 9, high, low, 0, 6, 0, 1])?;
        put(bytes, CODE)?;
    }
    Ok(())
}

fn class_bytes(alloc: Global, count: u16) -> Result<Vec<u8>, NoMemory> {
    let mut bytes = Vec::new(alloc);
    put(&mut bytes, HEADING)?;
    put(&mut bytes, &count.saturating_add(7).to_be_bytes())?;
    put(&mut bytes, ENTRIES)?;
    put_names(&mut bytes, count)?;
    put(&mut bytes, TO_METHODS)?;
    put(&mut bytes, &count.to_be_bytes())?;
    put_methods(&mut bytes, count)?;
    put(&mut bytes, &[0, 0])?;
    Ok(bytes)
}

/// What is told of a class with so many methods with Code.
fn fault_of_methods(alloc: Global, count: u16) -> Result<Option<AdmitError>, Fail> {
    let bytes = class_bytes(alloc, count)?;
    let classes = list(alloc, bytes.as_slice()).ok_or("a class")?;
    fault_of(alloc, classes)
}

/// The built-in classes have seven methods with Code.
#[test]
fn too_many_methods(rt: HostRuntime) -> Result<(), Fail> {
    let most = fault_of_methods(rt.alloc(), 32_761)?;
    assert!(rt; matches!(most, Some(AdmitError::NoMain)));
    let more = fault_of_methods(rt.alloc(), 32_762)?;
    assert!(rt; matches!(more, Some(AdmitError::TooManyMethods(32_769))));
    Ok(())
}

// ---- classes

/// What stands in front of the class's name, and behind it.
const TO_NAME: &[u8] = &[0, 5, 1, 0, 3];

const BEHIND_NAME: &[u8] =
    b"\x07\0\x01\x01\0\x10java/lang/Object\x07\0\x03\0\x21\0\x02\0\x04\0\0\0\0\0\0\0\0";

/// A class without members, whose name is this number in three letters.
fn named_bytes(alloc: Global, number: u16) -> Result<Vec<u8>, NoMemory> {
    let name = [letter(number / 1024), letter(number / 32), letter(number)];
    let mut bytes = Vec::new(alloc);
    put(&mut bytes, HEADING)?;
    put(&mut bytes, TO_NAME)?;
    put(&mut bytes, &name)?;
    put(&mut bytes, BEHIND_NAME)?;
    Ok(bytes)
}

fn named_class(alloc: Global, number: u16) -> Option<ClassFile>
    ensures { IfSome result IsClassFile }
{
    let bytes = named_bytes(alloc, number).ok()?;
    class(alloc, bytes.as_slice())
}

/// So many such classes.
#[tactic(auto, using(crate::proofs::Lists::all_more))]
fn named_classes(alloc: Global, count: u16) -> Option<Seq<ClassFile>>
    ensures formed { IfSome result (AllByRecursion IsClassFile) }
{
    let mut classes = Seq::new(alloc);
    for number in 0..count {
        classes.push(named_class(alloc, number)?).ok()?;
    }
    Some(classes)
}

/// None of them is the main class; two that agree would be told.
#[test]
fn as_many_classes_as_there_may_be(rt: HostRuntime) -> Result<(), Fail> {
    let classes = named_classes(rt.alloc(), 4096).ok_or("classes")?;
    assert_eq!(rt; classes.len(), 4096);
    let told = fault_of(rt.alloc(), classes)?;
    assert!(rt; matches!(told, Some(AdmitError::NoMain)));
    Ok(())
}
