//! Classes whose methods are so short that no version of theirs passes a limit, which is known without making one.

ghost use Rattle.std.specs.Prelude.{◌≡◌, true};
ghost use Rattle.std.specs.List.{list_all};
ghost use Rattle.inject_events.specs.Answers.{IsProfilable, IsReadableClass};
ghost use Rattle.inject_events.specs.SmallCodes.{has_room, has_small_body, has_small_codes, is_small_code};

use crate::rewriting::raws_fit;
use const_pool::{ClassFile, CodeAttribute, Member, Pool};
use jvm_model::code_of;

/// So many bytes of code have at most seven times as many in a version, and a branch of two bytes reaches as far.
const MOST_CODE: usize = 4_096;

/// So many bytes of attributes spell fewer frames than a table can have.
const MOST_TABLES: usize = 16_384;

/// The tail has so many entries.
const TAIL_ENTRIES: usize = 18;

/// Whether a Code is so short that no version of it passes a limit.
fn is_small_code(code: &CodeAttribute) -> bool
    ensures { result ≡ is_small_code code.now }
{
    code.max_stack < 65535
        && code.handlers.len() < 65535
        && code.code.len() <= MOST_CODE
        && raws_fit(code.attributes.as_slice(), MOST_TABLES)
}

/// Whether the method's Code is, where it has one.
fn has_small_body(method: &Member) -> bool
    ensures { result ≡ has_small_body method.now }
{
    match code_of(method) {
        Some(code) => is_small_code(code),
        None => true,
    }
}

/// Whether the pool has room for the tail.
fn has_room(pool: &Pool) -> bool
    ensures { result ≡ has_room pool.now }
{
    usize::from(pool.count()) + TAIL_ENTRIES <= 65535
}

/// Whether the Code of each of these methods is.
fn have_small_bodies(methods: &[Member]) -> bool
    ensures { result ≡ list_all has_small_body methods.now }
{
    methods.iter().all(|method| has_small_body(method))
}

/// Whether that of each method of the class is, and the pool has room.
fn has_small_codes(class: &ClassFile) -> bool
    ensures { result ≡ has_small_codes class.now }
{
    has_room(&class.pool) && have_small_bodies(class.methods.as_slice())
}

/// Whether each Code of the class is so short that it can be rewritten whatever is in it. Nearly all classes are such;
/// of another one `instrument` tells whether it can be rewritten.
pub fn is_surely_profilable(class: &ClassFile) -> bool
    requires class { IsReadableClass class.now }
    ensures small { result ≡ has_small_codes class.now }
    ensures profilable { result ≡ true → IsProfilable class.now }
{
    has_small_codes(class)
}
