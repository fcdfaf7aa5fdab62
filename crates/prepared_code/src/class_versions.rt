//! The versions of a class's methods for an image of the class.

ghost use Rattle.std.specs.Prelude.{◌≡◌, ◌<◌, ◌^◌, length, IfOk};
ghost use Rattle.std.specs.Option.{option_copied};
ghost use Rattle.jvm_model.specs.Basis.Methods.{code_of, method_code};
ghost use Rattle.member_selection.specs.Numbers.{AreNumbers};
ghost use Rattle.prepared_code.specs.ClassVersions.{FitsImage, class_version, class_versions};
ghost use Rattle.prepared_code.specs.ClassVersions.{homes_at};
ghost use Rattle.prepared_code.specs.ClassVersions.{versions_from};
ghost use Rattle.prepared_code.specs.Prepared.{FitsOriginals, HasShortCodes};

use crate::preparing::original_version;
use crate::rewritten::rewritten_version;
use crate::versions::Version;
use code_model::Homes;
use const_pool::{ClassFile, CodeAttribute};
use jf_bytes::{NoMemory, Seq};
use jvm_model::{Program, code_of};
use member_selection::MethodNumbers;
use std::alloc::Global;

// ---- one method

/// The homes of the method at a position, where there are some.
fn homes_at(homes: &[Option<Homes>], at: usize) -> Option<&Homes>
    ensures { option_copied result ≡ homes_at homes.now at }
{
    homes.get(at)?.as_ref()
}

/// The code of the method at a position of an image.
fn image_code(image: &ClassFile, at: usize) -> Option<&CodeAttribute>
    ensures { option_copied result ≡ method_code image.now at }
{
    code_of(image.methods.get(at)?)
}

/// The version of a method, which has this original code.
fn class_version(
    alloc: Global,
    program: &Program,
    image: &ClassFile,
    homes: &[Option<Homes>],
    at: usize,
    old: &CodeAttribute,
    method: u32,
) -> Result<Version, NoMemory>
    requires fits { FitsOriginals program.now }
    requires image { FitsImage image.now homes.now }
    requires short { length old.now.code < 2 ^ 16 }
    ensures { IfOk result (λ version. version
        ≡ class_version program.now image.now homes.now at old.now method) }
{
    let Some(homes) = homes_at(homes, at) else {
        return original_version(alloc, program, method);
    };
    let Some(code) = image_code(image, at) else {
        return original_version(alloc, program, method);
    };
    rewritten_version(alloc, method, image, code, homes, old.code.len() as u16)
}

// ---- all that have Code

/// The versions of a class's methods.
fn versions_of(
    alloc: Global,
    program: &Program,
    numbers: &MethodNumbers,
    class: u32,
    file: &ClassFile,
    image: &ClassFile,
    homes: &[Option<Homes>],
) -> Result<Seq<Version>, NoMemory>
    requires fits { FitsOriginals program.now }
    requires numbers { AreNumbers program.now numbers.now }
    requires image { FitsImage image.now homes.now }
    requires short { HasShortCodes file.now }
    requires few { length file.now.methods < 2 ^ 16 }
    ensures { IfOk result (λ versions. versions
        ≡ versions_from program.now class image.now homes.now 0 file.now.methods) }
{
    let mut versions = Seq::new(alloc);
    for (at, member) in file.methods.as_slice().iter().enumerate() {
        let Some(old) = code_of(member) else {
            continue;
        };
        let Some(method) = numbers.number(class, at as u16) else {
            continue;
        };
        let version = class_version(alloc, program, image, homes, at, old, method)?;
        versions.push(version)?;
    }
    Ok(versions)
}

/// The versions of the methods of the class at a position of a program.
pub fn class_versions(
    alloc: Global,
    program: &Program,
    numbers: &MethodNumbers,
    class: u32,
    image: &ClassFile,
    homes: &[Option<Homes>],
) -> Result<Seq<Version>, NoMemory>
    requires fits { FitsOriginals program.now }
    requires numbers { AreNumbers program.now numbers.now }
    requires image { FitsImage image.now homes.now }
    ensures { IfOk result (λ versions. versions
        ≡ class_versions program.now class image.now homes.now) }
{
    let Some(file) = program.classes.get(class as usize) else {
        return Ok(Seq::new(alloc));
    };
    versions_of(alloc, program, numbers, class, file, image, homes)
}
