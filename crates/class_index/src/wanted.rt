//! A member that is wanted.

ghost use Rattle.std.specs.Prelude.{◌≡◌};
ghost use Rattle.jvm_model.specs.Basis.Methods.{is_member};
ghost use Rattle.class_index.specs.Members.{wanted_view};

use const_pool::{Member, Pool};
use jf_bytes::Text16;

/// The name and the descriptor of a member.
#[derive(Clone, Copy)]
pub struct Wanted<'a> {
    pub name: &'a Text16,
    pub descriptor: &'a Text16,
}

/// Whether a member has this name and this descriptor.
pub fn is_member(pool: &Pool, wanted: &Wanted<'_>, member: &Member) -> bool
    ensures { result ≡ is_member pool.now (wanted_view wanted.now) member.now }
{
    pool.is_text(member.name, wanted.name) && pool.is_text(member.descriptor, wanted.descriptor)
}
