//! How many slots a value takes (JVM Specification 2.6.1).

ghost use Rattle.std.specs.Prelude.{◌≡◌};
ghost use Rattle.frame_stack.specs.Widths.{is_long, width};

use heap_objects::Value;

/// Whether a value takes two slots.
#[inline(always)]
pub fn is_long(value: Value) -> bool
    ensures { result ≡ is_long value }
{
    matches!(value, Value::Long(_))
}

/// How many slots a value takes: a long takes two.
#[inline(always)]
pub fn width(value: Value) -> usize
    ensures { result ≡ width value }
{
    if is_long(value) { 2 } else { 1 }
}
