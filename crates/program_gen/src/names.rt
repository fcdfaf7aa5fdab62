//! The texts of names.

ghost use Rattle.std.specs.Prelude.{◌≡◌, IfOk};
ghost use Rattle.program_gen.specs.Names.{class_text, member_text, member_descriptor};

use crate::rows::{ClassName, MemberName};
use class_making::text_of;
use jf_bytes::{NoMemory, Text16};
use std::alloc::Global;

/// The name of a class, with slashes.
pub fn class_text(alloc: Global, name: ClassName) -> Result<Text16, NoMemory>
    ensures { IfOk result (λ text. text ≡ class_text name) }
{
    match name {
        ClassName::Object => text_of(alloc, "java/lang/Object"),
        ClassName::System => text_of(alloc, "java/lang/System"),
        ClassName::PrintStream => text_of(alloc, "java/io/PrintStream"),
        ClassName::Main => text_of(alloc, "GenMain"),
        ClassName::Numbered(number) => text_of(alloc, &format!(in alloc; "Gen{number}")?),
    }
}

pub(crate) fn member_text(name: MemberName) -> &'static str
    ensures { result.now ≡ member_text name }
{
    match name {
        MemberName::Initializer => "<init>",
        MemberName::Entry => "main",
        MemberName::Run => "run",
        MemberName::Out => "out",
        MemberName::Println => "println",
    }
}

pub(crate) fn member_descriptor(name: MemberName) -> &'static str
    ensures { result.now ≡ member_descriptor name }
{
    match name {
        MemberName::Initializer => "()V",
        MemberName::Entry => "([Ljava/lang/String;)V",
        MemberName::Run => "(II)I",
        MemberName::Out => "Ljava/io/PrintStream;",
        MemberName::Println => "(I)V",
    }
}
