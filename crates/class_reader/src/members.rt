//! Interfaces, fields and methods (JVM Specification 4.1, 4.5, 4.6).

use crate::error::ReadError;
use crate::lists::{ReadItem, counted_of};
use crate::numbers::u16_of;
use crate::references::{class_ref_of, utf8_ref_of};
use const_pool::{Attribute, Const, Member};
use std::alloc::Global;

/// Reads indices of classes.
#[derive(Clone, Copy)]
pub(crate) struct Classes<'p> {
    pub(crate) pool: &'p [Const],
}

impl ReadItem<u16> for Classes<'_> {
    ghost use Rattle.const_pool.specs.Pool.{is_class};
    ghost use Rattle.class_reader.specs.Reading.{ref_at};

    ghost item = { λ s. ref_at is_class s.pool.now };

    fn read<'a>(
        &self,
        alloc: Global,
        limit: usize,
        bytes: &'a [u8],
    ) -> Result<(u16, &'a [u8]), ReadError> {
        let _alloc = alloc;
        class_ref_of(self.pool, limit, bytes)
    }
}

/// Reads fields, or methods, by their attributes.
#[derive(Clone, Copy)]
pub(crate) struct Members<'p, R> {
    pub(crate) pool: &'p [Const],
    pub(crate) attributes: R,
}

impl<R: ReadItem<Attribute>> ReadItem<Member> for Members<'_, R> {
    ghost use Rattle.class_reader.specs.Reading.{member_at};

    ghost item = { λ s. member_at (R.item s.attributes) s.pool.now };

    #[tactic(auto, unfolding(crate::specs::Reading::member_at))]
    fn read<'a>(
        &self,
        alloc: Global,
        limit: usize,
        bytes: &'a [u8],
    ) -> Result<(Member, &'a [u8]), ReadError> {
        let (access, rest) = u16_of(limit, bytes)?;
        let (name, rest) = utf8_ref_of(self.pool, limit, rest)?;
        let (descriptor, rest) = utf8_ref_of(self.pool, limit, rest)?;
        let (attributes, rest) = counted_of(&self.attributes, alloc, limit, rest)?;
        let member = Member {
            access,
            name,
            descriptor,
            attributes,
        };
        Ok((member, rest))
    }
}
