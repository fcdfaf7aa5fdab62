//! The contents of a Code attribute (JVM Specification 4.7.3).

ghost use Rattle.class_reader.specs.Reading.{Gives, with_rest, handler_at, code_length_at, code_bytes_at, code_at};

use crate::attributes::Raws;
use crate::error::ReadError;
use crate::lists::{ReadItem, counted_of};
use crate::numbers::{run_of, u16_of, u32_of};
use crate::references::optional_class_of;
use byte_formats::place_of;
use const_pool::{CodeAttribute, Const, Handler};
use jf_bytes::Seq;
use std::alloc::Global;

/// Reads entries of an exception table.
#[derive(Clone, Copy)]
struct Handlers<'p> {
    pool: &'p [Const],
}

impl ReadItem<Handler> for Handlers<'_> {
    ghost use Rattle.class_reader.specs.Reading.{handler_at};

    ghost item = { λ s. handler_at s.pool.now };

    #[tactic(auto, unfolding(crate::specs::Reading::handler_at))]
    fn read<'a>(
        &self,
        alloc: Global,
        limit: usize,
        bytes: &'a [u8],
    ) -> Result<(Handler, &'a [u8]), ReadError> {
        let _alloc = alloc;
        let (start, rest) = u16_of(limit, bytes)?;
        let (end, rest) = u16_of(limit, rest)?;
        let (handler, rest) = u16_of(limit, rest)?;
        let (catch_class, rest) = optional_class_of(self.pool, limit, rest)?;
        let handler = Handler {
            start,
            end,
            handler,
            catch_class,
        };
        Ok((handler, rest))
    }
}

/// A code_length, which is 1 to 65535.
#[tactic(auto, unfolding(crate::specs::Reading::tested_at))]
fn code_length_of(limit: usize, bytes: &[u8]) -> Result<(u32, &[u8]), ReadError>
    ensures { Gives with_rest result (code_length_at limit bytes.now) }
{
    let (len, rest) = u32_of(limit, bytes)?;
    if len == 0 || len >= 65_536 {
        return Err(ReadError::BadLength(place_of(limit, bytes)));
    }
    Ok((len, rest))
}

/// The bytes of a code behind their length.
#[tactic(auto, unfolding(crate::specs::Reading::code_bytes_at))]
fn code_bytes_of(limit: usize, bytes: &[u8]) -> Result<(&[u8], &[u8]), ReadError>
    ensures { Gives (λ x. (x.0.now, x.1.now)) result (code_bytes_at limit bytes.now) }
{
    let (len, rest) = code_length_of(limit, bytes)?;
    run_of(len as usize, limit, rest)
}

/// The contents of a Code attribute.
#[tactic(auto, unfolding(crate::specs::Reading::code_at))]
pub(crate) fn code_contents_of<'a>(
    alloc: Global,
    pool: &[Const],
    limit: usize,
    bytes: &'a [u8],
) -> Result<(CodeAttribute, &'a [u8]), ReadError>
    ensures { Gives with_rest result (code_at pool.now limit bytes.now) }
{
    let (max_stack, rest) = u16_of(limit, bytes)?;
    let (max_locals, rest) = u16_of(limit, rest)?;
    let (code, rest) = code_bytes_of(limit, rest)?;
    let (handlers, rest) = counted_of(&Handlers { pool }, alloc, limit, rest)?;
    let (attributes, rest) = counted_of(&Raws { pool }, alloc, limit, rest)?;
    let code = CodeAttribute {
        max_stack,
        max_locals,
        code: Seq::from_slice(alloc, code)?,
        handlers,
        attributes,
    };
    Ok((code, rest))
}
