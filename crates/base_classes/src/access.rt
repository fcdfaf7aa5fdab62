//! Access flags of classes and members (JVM Specification 4.1, 4.5, 4.6).

pub const PUBLIC: u16 = 0x0001;

pub const PRIVATE: u16 = 0x0002;

pub const PROTECTED: u16 = 0x0004;

pub const STATIC: u16 = 0x0008;

pub const FINAL: u16 = 0x0010;

/// Of a class: invokespecial looks methods up in the superclass. Each class has it.
pub const SUPER: u16 = 0x0020;

pub const NATIVE: u16 = 0x0100;

pub const INTERFACE: u16 = 0x0200;

pub const ABSTRACT: u16 = 0x0400;
