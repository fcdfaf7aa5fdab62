//! What is asked of a class before its code is read (JVM Specification 4.1, 4.5, 4.6, 4.7.2, 4.7.3).

ghost use Rattle.std.specs.Prelude.{◌≡◌, IfOk, slice_get, false};
ghost use Rattle.std.specs.List.{list_any};
ghost use Rattle.std.specs.Option.{option_map_or};
ghost use Rattle.jvm_model.specs.Basis.Descriptors.{same_text};
ghost use Rattle.jvm_model.specs.Basis.Methods.{has_flag};
ghost use Rattle.code_admission.specs.Texts.{is_field_text, is_method_text};
ghost use Rattle.admit_check.specs.Shapes.{is_taken_name, is_probe_entry, is_reserved, has_wrong_name};
ghost use Rattle.admit_check.specs.Shapes.{final_names, is_no_super_name, has_wrong_super, has_no_body};
ghost use Rattle.admit_check.specs.Shapes.{has_wrong_text, has_wrong_descriptor, is_code, code_count};
ghost use Rattle.admit_check.specs.Shapes.{has_wrong_code_count, fits_kind, takes_kind, fits_descriptor};
ghost use Rattle.admit_check.specs.Shapes.{constants_of, fits_constant, has_right_constants};
ghost use Rattle.admit_check.specs.Shapes.{has_wrong_constant, shape_fault};

use crate::twins::has_member_twice;
use base_classes::{ABSTRACT, NATIVE, STATIC, is_built_in};
use code_admission::{
    AdmitError, ShapeCause, field_kind, is_array_name, is_field_text, method_kinds,
};
use const_pool::{Attribute, ClassFile, Const, Kind, Member, Pool};
use jf_bytes::{NoMemory, Seq, Text16};
use jvm_model::has_flag;
use std::alloc::Global;

/// Whether no class of a program may have the name.
fn is_taken_name(name: &Text16) -> bool
    ensures { result ≡ is_taken_name name.now }
{
    name.is_bytes(b"jfluid/Probe") || is_built_in(name)
}

/// Whether an entry names the class of the probes.
fn is_probe_entry(pool: &Pool, entry: &Const) -> bool
    ensures { result ≡ is_probe_entry pool.now entry.now }
{
    match entry {
        Const::Class(index) => match pool.text(*index) {
            Ok(name) => name.is_bytes(b"jfluid/Probe"),
            Err(_) => false,
        },
        _ => false,
    }
}

/// Whether the index names such an entry.
fn names_probe(pool: &Pool, index: u16) -> bool
    ensures { result ≡ option_map_or (is_probe_entry pool.now) (slice_get pool.now index) false }
{
    match pool.get(index) {
        Some(entry) => is_probe_entry(pool, entry),
        None => false,
    }
}

/// Whether an entry of the pool names the class of the probes.
fn has_probe_entry(pool: &Pool) -> bool
    ensures { result ≡ list_any (is_probe_entry pool.now) pool.now }
{
    for index in 0..pool.count() {
        if names_probe(pool, index) {
            return true;
        }
    }
    false
}

/// Whether the class has a reserved name, or names the class of the probes.
pub fn is_reserved(class: &ClassFile) -> bool
    ensures { result ≡ is_reserved class.now }
{
    let taken = match class.pool.class_name(class.this_class) {
        Ok(name) => is_taken_name(name),
        Err(_) => false,
    };
    taken || has_probe_entry(&class.pool)
}

/// Whether the class's name is empty or that of an array.
pub fn has_wrong_name(class: &ClassFile) -> bool
    ensures { result ≡ has_wrong_name class.now }
{
    match class.pool.class_name(class.this_class) {
        Ok(name) => name.units().is_empty() || is_array_name(name),
        Err(_) => false,
    }
}

/// Whether the name is one of the four final built-in classes.
fn is_final_name(name: &Text16) -> bool
    ensures { result ≡ list_any (same_text name.now) final_names }
{
    name.is_bytes(b"java/lang/String")
        || name.is_bytes(b"java/lang/StringBuilder")
        || name.is_bytes(b"java/lang/StringBuffer")
        || name.is_bytes(b"java/lang/Class")
}

/// Whether no class may extend the class of this name.
fn is_no_super_name(name: &Text16) -> bool
    ensures { result ≡ is_no_super_name name.now }
{
    is_array_name(name) || is_final_name(name)
}

/// Whether the class has no superclass, or one that none may have.
pub fn has_wrong_super(class: &ClassFile) -> bool
    ensures { result ≡ has_wrong_super class.now }
{
    if class.super_class == 0 {
        return true;
    }
    match class.pool.class_name(class.super_class) {
        Ok(name) => is_no_super_name(name),
        Err(_) => false,
    }
}

/// Whether a field's descriptor is none.
fn has_wrong_field_text(pool: &Pool, field: &Member) -> bool
    ensures { result ≡ has_wrong_text is_field_text pool.now field.now }
{
    match pool.text(field.descriptor) {
        Ok(text) => !is_field_text(text),
        Err(_) => true,
    }
}

/// Whether a method's descriptor is none.
fn has_wrong_method_text(alloc: Global, pool: &Pool, method: &Member) -> Result<bool, NoMemory>
    ensures { IfOk result (λ wrong. wrong ≡ has_wrong_text is_method_text pool.now method.now) }
{
    match pool.text(method.descriptor) {
        Ok(text) => Ok(method_kinds(alloc, text)?.is_none()),
        Err(_) => Ok(true),
    }
}

/// Whether a method among these has a descriptor that is none.
fn has_wrong_method(alloc: Global, pool: &Pool, methods: &[Member]) -> Result<bool, NoMemory>
    ensures { let wrong = has_wrong_text is_method_text pool.now in
        IfOk result (λ any. any ≡ list_any wrong methods.now) }
{
    for method in methods {
        if has_wrong_method_text(alloc, pool, method)? {
            return Ok(true);
        }
    }
    Ok(false)
}

/// Whether a field among these has a descriptor that is none.
fn has_wrong_field(pool: &Pool, fields: &[Member]) -> bool
    ensures { result ≡ list_any (has_wrong_text is_field_text pool.now) fields.now }
{
    fields.iter().any(|field| has_wrong_field_text(pool, field))
}

/// Whether a member has a descriptor that is none.
pub fn has_wrong_descriptor(alloc: Global, class: &ClassFile) -> Result<bool, NoMemory>
    ensures { IfOk result (λ wrong. wrong ≡ has_wrong_descriptor class.now) }
{
    if has_wrong_field(&class.pool, class.fields.as_slice()) {
        return Ok(true);
    }
    has_wrong_method(alloc, &class.pool, class.methods.as_slice())
}

/// Whether a method has no body.
fn has_no_body(method: &Member) -> bool
    ensures { result ≡ has_no_body method.now }
{
    has_flag(method.access, NATIVE) || has_flag(method.access, ABSTRACT)
}

/// Whether an attribute is a Code.
fn is_code(attribute: &Attribute) -> bool
    ensures { result ≡ is_code attribute.now }
{
    matches!(attribute, Attribute::Code(..))
}

/// How many Codes stand among the attributes.
fn code_count(attributes: &[Attribute]) -> usize
    ensures { result ≡ code_count attributes.now }
{
    attributes
        .iter()
        .filter(|attribute| is_code(attribute))
        .count()
}

/// Whether a method has a Code too many or too few.
fn has_wrong_code_count(method: &Member) -> bool
    ensures { result ≡ has_wrong_code_count method.now }
{
    let count = code_count(method.attributes.as_slice());
    if has_no_body(method) {
        0 < count
    } else {
        count != 1
    }
}

/// Whether a method among these has a Code too many or too few.
pub fn has_wrong_code(methods: &[Member]) -> bool
    ensures { result ≡ list_any has_wrong_code_count methods.now }
{
    methods.iter().any(|method| has_wrong_code_count(method))
}

/// Whether a field of this kind may begin with the entry.
fn fits_kind(kind: Kind, entry: &Const) -> bool
    ensures { result ≡ fits_kind kind entry.now }
{
    match (kind, entry) {
        (Kind::Int | Kind::Short | Kind::Char | Kind::Byte | Kind::Bool, Const::Integer(_)) => true,
        (Kind::Long, Const::Long(_)) => true,
        (Kind::Float, Const::Float(_)) => true,
        (Kind::Double, Const::Double(_)) => true,
        (Kind::Ref, Const::Text(_)) => true,
        _ => false,
    }
}

/// Whether a field of this kind is, where it is a reference, one to String.
fn takes_kind(descriptor: &Text16, kind: Kind) -> bool
    ensures { result ≡ takes_kind descriptor.now kind }
{
    match kind {
        Kind::Ref => descriptor.is_bytes(b"Ljava/lang/String;"),
        _ => true,
    }
}

/// Whether a field of this descriptor may begin with the entry.
fn fits_descriptor(entry: &Const, descriptor: &Text16) -> bool
    ensures { result ≡ fits_descriptor entry.now descriptor.now }
{
    match field_kind(descriptor) {
        Some(kind) => takes_kind(descriptor, kind) && fits_kind(kind, entry),
        None => false,
    }
}

/// Whether a field may begin with the constant at an index.
fn fits_constant(pool: &Pool, field: &Member, index: u16) -> bool
    ensures { result ≡ fits_constant pool.now field.now index }
{
    let Some(entry) = pool.get(index) else {
        return false;
    };
    match pool.text(field.descriptor) {
        Ok(descriptor) => fits_descriptor(entry, descriptor),
        Err(_) => false,
    }
}

/// The indices of the constants among a field's attributes.
fn constants_of(alloc: Global, attributes: &[Attribute]) -> Result<Seq<u16>, NoMemory>
    ensures { IfOk result (λ indices. indices ≡ constants_of attributes.now) }
{
    let mut indices = Seq::new(alloc);
    for attribute in attributes {
        if let Attribute::ConstantValue(_, index) = attribute {
            indices.push(*index)?;
        }
    }
    Ok(indices)
}

/// Whether a field has no constant, or one that fits.
fn has_right_constants(pool: &Pool, field: &Member, indices: &[u16]) -> bool
    ensures { result ≡ has_right_constants pool.now field.now indices.now }
{
    match indices {
        [] => true,
        [index] => fits_constant(pool, field, *index),
        _ => false,
    }
}

/// Whether a static field has a constant that does not fit, or several.
fn has_wrong_constant(alloc: Global, pool: &Pool, field: &Member) -> Result<bool, NoMemory>
    ensures { IfOk result (λ wrong. wrong ≡ has_wrong_constant pool.now field.now) }
{
    if !has_flag(field.access, STATIC) {
        return Ok(false);
    }
    let indices = constants_of(alloc, field.attributes.as_slice())?;
    Ok(!has_right_constants(pool, field, indices.as_slice()))
}

/// Whether a field among these has.
pub fn has_constant_fault(alloc: Global, pool: &Pool, fields: &[Member]) -> Result<bool, NoMemory>
    ensures { IfOk result (λ wrong. wrong ≡ list_any (has_wrong_constant pool.now) fields.now) }
{
    for field in fields {
        if has_wrong_constant(alloc, pool, field)? {
            return Ok(true);
        }
    }
    Ok(false)
}

/// The first fault of a class's shape, in the order of `ShapeCause`.
pub fn shape_fault(
    alloc: Global,
    number: u32,
    class: &ClassFile,
) -> Result<Option<AdmitError>, NoMemory>
    ensures { IfOk result (λ fault. fault ≡ shape_fault number class.now) }
{
    if has_wrong_name(class) {
        return Ok(Some(AdmitError::BadShape(number, ShapeCause::Name)));
    }
    if has_wrong_super(class) {
        return Ok(Some(AdmitError::BadShape(number, ShapeCause::Super)));
    }
    if has_wrong_descriptor(alloc, class)? {
        return Ok(Some(AdmitError::BadShape(number, ShapeCause::Descriptor)));
    }
    if has_member_twice(alloc, class)? {
        return Ok(Some(AdmitError::BadShape(number, ShapeCause::Twice)));
    }
    if has_wrong_code(class.methods.as_slice()) {
        return Ok(Some(AdmitError::BadShape(number, ShapeCause::Code)));
    }
    if has_constant_fault(alloc, &class.pool, class.fields.as_slice())? {
        return Ok(Some(AdmitError::BadShape(number, ShapeCause::Constant)));
    }
    Ok(None)
}
