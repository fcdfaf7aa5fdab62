//! What fields hold (JVM Specification 4.3.2), by their descriptors.

ghost use Rattle.std.specs.Prelude.{◌≡◌};
ghost use Rattle.jvm_model.specs.Classes.Layouts.{field_kind, held_by};

use const_pool::{ClassFile, Kind, Member};

/// What a field of this descriptor holds, which its first unit tells.
pub fn held_by(descriptor: &[u16]) -> Kind
    ensures { result ≡ held_by descriptor.now }
{
    match descriptor.first() {
        Some(66) => Kind::Byte,
        Some(67) => Kind::Char,
        Some(68) => Kind::Double,
        Some(70) => Kind::Float,
        Some(73) => Kind::Int,
        Some(74) => Kind::Long,
        Some(83) => Kind::Short,
        Some(90) => Kind::Bool,
        _ => Kind::Ref,
    }
}

/// What a field of a class holds.
pub fn field_kind(file: &ClassFile, field: &Member) -> Kind
    ensures { result ≡ field_kind file.now field.now }
{
    match file.pool.text(field.descriptor) {
        Ok(descriptor) => held_by(descriptor.units()),
        Err(_) => held_by(&[]),
    }
}
