//! The first fault of a code (JVM Specification 4.7.3, 4.9.1).

ghost use Rattle.std.specs.Prelude.{◌≡◌, None, Ok, map, IfOk, IfErr, IfSome, OnOk};
ghost use Rattle.const_pool.specs.ClassFile.{IsClassFile};
ghost use Rattle.jvm_model.specs.Basis.Methods.{code_of};
ghost use Rattle.code_admission.specs.Checks.{first_in};
ghost use Rattle.code_admission.specs.Codes.{method_with, cause_of, instr_fault, falls, fits_handler};
ghost use Rattle.code_admission.specs.Codes.{handler_fault, table_fault, read_fault, reading_fault};
ghost use Rattle.code_admission.specs.Codes.{code_fault};
ghost use Rattle.code_admission.specs.Codes.{instructions_of, result_of, method_fault, codes_fault};
ghost use Rattle.code_admission.specs.Codes.{reading_of, read_as, readings_of, HasCodeLength};
ghost use Rattle.code_admission.specs.Codes.{IsCodeRefusal, IsRefusal};
ghost use Rattle.code_admission.specs.Uses.{AreWithin};
ghost use Rattle.code_model.specs.Reading.{Gives};

use crate::code_tables::fits_raw;
use crate::error::{AdmitError, CodeCause};
use crate::starts::Body;
use crate::texts::method_kinds;
use crate::uses::{fits_locals, fits_pool, fits_return, fits_type};
use code_model::{Code, CodeError, Instr, decode};
use const_pool::{ClassFile, CodeAttribute, Handler, Kind, Member, Pool, Raw};
use jf_bytes::{NoMemory, Seq};
use jvm_model::code_of;
use op_table::row;
use std::alloc::Global;

/// A fault of a code: the offset at which it is told.
#[derive(Clone, Copy, Debug, PartialEq, Eq)]
pub struct CodeFault {
    pub at: u16,
    pub cause: CodeCause,
}

/// Why a code is refused.
#[derive(Clone, Copy, Debug, PartialEq, Eq)]
pub enum CodeRefusal {
    Fault(CodeFault),
    NoMemory,
}

impl From<NoMemory> for CodeRefusal {
    ghost use Rattle.code_admission.specs.declared.codes.CodeRefusal.TheVariants.{NoMemory as none_left};

    ghost from_gives = { λ _ e. e ≡ none_left };

    fn from(_error: NoMemory) -> CodeRefusal {
        CodeRefusal::NoMemory
    }
}

/// What is wrong with an instruction of the body.
fn cause_of(
    alloc: Global,
    pool: &Pool,
    given: Option<Kind>,
    body: &Body,
    max_locals: u16,
    instr: &Instr,
) -> Result<Option<CodeCause>, NoMemory>
    ensures { IfOk result (λ cause.
        cause ≡ cause_of (method_with pool.now given body.now max_locals) instr.now) }
{
    if !fits_pool(alloc, pool, instr)? {
        return Ok(Some(CodeCause::Pool));
    }
    if !fits_locals(max_locals, instr) {
        return Ok(Some(CodeCause::Local));
    }
    if !body.fits_targets(&instr.arg) {
        return Ok(Some(CodeCause::Target));
    }
    if !fits_return(given, instr.op) {
        return Ok(Some(CodeCause::Return));
    }
    if !fits_type(pool, instr.op, &instr.arg) {
        return Ok(Some(CodeCause::Operand));
    }
    Ok(None)
}

/// The fault of an instruction of the body.
fn instr_fault(
    alloc: Global,
    pool: &Pool,
    given: Option<Kind>,
    body: &Body,
    max_locals: u16,
    instr: &Instr,
) -> Result<Option<CodeFault>, NoMemory>
    ensures { IfOk result (λ fault.
        fault ≡ instr_fault (method_with pool.now given body.now max_locals) instr.now) }
{
    match cause_of(alloc, pool, given, body, max_locals, instr)? {
        Some(cause) => Ok(Some(CodeFault {
            at: instr.at,
            cause,
        })),
        None => Ok(None),
    }
}

/// The first fault of the body's instructions.
fn first_instr_fault(
    alloc: Global,
    pool: &Pool,
    given: Option<Kind>,
    body: &Body,
    max_locals: u16,
) -> Result<Option<CodeFault>, NoMemory>
    ensures { IfOk result (λ fault. fault
        ≡ first_in (instr_fault (method_with pool.now given body.now max_locals)) body.now) }
{
    for instr in body.instrs() {
        if let Some(fault) = instr_fault(alloc, pool, given, body, max_locals, instr)? {
            return Ok(Some(fault));
        }
    }
    Ok(None)
}

/// The fault that control goes on behind the instructions.
fn falls(instrs: &[Instr]) -> Option<CodeFault>
    ensures { result ≡ falls instrs.now }
{
    let last = instrs.last()?;
    if row(last.op).ends {
        return None;
    }
    Some(CodeFault {
        at: last.at,
        cause: CodeCause::Falls,
    })
}

/// Whether the offsets of a handler are right in a body of so many bytes.
fn fits_handler(body: &Body, len: u16, handler: &Handler) -> bool
    ensures { result ≡ fits_handler body.now len handler.now }
{
    body.is_start(handler.start)
        && (body.is_start(handler.end) || handler.end == len)
        && body.is_start(handler.handler)
        && handler.start < handler.end
}

/// The fault of a handler.
fn handler_fault(body: &Body, len: u16, handler: &Handler) -> Option<CodeFault>
    ensures { result ≡ handler_fault body.now len handler.now }
{
    if fits_handler(body, len, handler) {
        return None;
    }
    Some(CodeFault {
        at: handler.start,
        cause: CodeCause::Handler,
    })
}

/// The first fault of the handlers.
fn first_handler_fault(body: &Body, len: u16, handlers: &[Handler]) -> Option<CodeFault>
    ensures { result ≡ first_in (handler_fault body.now len) handlers.now }
{
    for handler in handlers {
        if let Some(fault) = handler_fault(body, len, handler) {
            return Some(fault);
        }
    }
    None
}

/// The fault of a table of the body.
fn table_fault(
    alloc: Global,
    pool: &Pool,
    body: &Body,
    raw: &Raw,
) -> Result<Option<CodeFault>, NoMemory>
    ensures { IfOk result (λ fault. fault ≡ table_fault pool.now body.now raw.now) }
{
    if fits_raw(alloc, pool, body, raw)? {
        return Ok(None);
    }
    Ok(Some(CodeFault {
        at: 0,
        cause: CodeCause::Table,
    }))
}

/// The first fault of the tables.
fn first_table_fault(
    alloc: Global,
    pool: &Pool,
    body: &Body,
    raws: &[Raw],
) -> Result<Option<CodeFault>, NoMemory>
    ensures { IfOk result (λ fault.
        fault ≡ first_in (table_fault pool.now body.now) raws.now) }
{
    for raw in raws {
        if let Some(fault) = table_fault(alloc, pool, body, raw)? {
            return Ok(Some(fault));
        }
    }
    Ok(None)
}

/// The fault of a code that was decoded.
fn read_fault(
    alloc: Global,
    pool: &Pool,
    given: Option<Kind>,
    body: &Body,
    code: &CodeAttribute,
) -> Result<Option<CodeFault>, NoMemory>
    requires { HasCodeLength code.now }
    ensures { IfOk result (λ fault. fault
        ≡ read_fault (method_with pool.now given body.now code.now.max_locals) code.now) }
{
    if let Some(fault) = first_instr_fault(alloc, pool, given, body, code.max_locals)? {
        return Ok(Some(fault));
    }
    if let Some(fault) = falls(body.instrs()) {
        return Ok(Some(fault));
    }
    let len = code.code.len() as u16;
    if let Some(fault) = first_handler_fault(body, len, code.handlers.as_slice()) {
        return Ok(Some(fault));
    }
    first_table_fault(alloc, pool, body, code.attributes.as_slice())
}

/// The code that the bytes are.
fn decoded(alloc: Global, code: &CodeAttribute) -> Result<Code, CodeError>
    requires { HasCodeLength code.now }
    ensures reading { Gives (λ decoded. decoded.instrs) result (instructions_of code.now.code) }
    ensures within { IfOk result (λ decoded. AreWithin decoded.len decoded.instrs) }
{
    decode(alloc, code.code.as_slice())
}

/// The refusal for what a reader of instructions answered.
fn refusal_of(error: CodeError) -> CodeRefusal
    ensures { IsCodeRefusal (reading_fault error) result }
{
    match error {
        CodeError::BadOpcode(at) => CodeRefusal::Fault(CodeFault {
            at,
            cause: CodeCause::Opcode,
        }),
        CodeError::Cut(at) => CodeRefusal::Fault(CodeFault {
            at,
            cause: CodeCause::Cut,
        }),
        CodeError::BadSwitch(at) => CodeRefusal::Fault(CodeFault {
            at,
            cause: CodeCause::Switch,
        }),
        CodeError::NoMemory => CodeRefusal::NoMemory,
    }
}

/// The code that the bytes are, where it has no fault.
fn check_code(
    alloc: Global,
    pool: &Pool,
    given: Option<Kind>,
    code: &CodeAttribute,
) -> Result<Code, CodeRefusal>
    requires { HasCodeLength code.now }
    ensures fine { OnOk result (code_fault pool.now given code.now ≡ None) }
    ensures reading { IfOk result (λ decoded.
        instructions_of code.now.code ≡ Ok decoded.instrs) }
    ensures fault { IfErr result (IsCodeRefusal (code_fault pool.now given code.now)) }
{
    let Code { instrs, len } = match decoded(alloc, code) {
        Ok(decoded) => decoded,
        Err(error) => return Err(refusal_of(error)),
    };
    let body = Body::new(alloc, len, instrs)?;
    match read_fault(alloc, pool, given, &body, code)? {
        Some(fault) => Err(CodeRefusal::Fault(fault)),
        None => Ok(Code {
            instrs: body.into_instrs(),
            len,
        }),
    }
}

/// What a method gives.
fn result_of(alloc: Global, pool: &Pool, method: &Member) -> Result<Option<Kind>, NoMemory>
    ensures { IfOk result (λ given. given ≡ result_of pool.now method.now) }
{
    let Ok(text) = pool.text(method.descriptor) else {
        return Ok(None);
    };
    match method_kinds(alloc, text)? {
        Some(shape) => Ok(shape.result),
        None => Ok(None),
    }
}

/// The code of the method at this position, where it has Code and that has no fault.
fn check_method(
    alloc: Global,
    number: u32,
    pool: &Pool,
    at: u16,
    method: &Member,
) -> Result<Option<Code>, AdmitError>
    requires { IfSome (code_of method.now) HasCodeLength }
    ensures fine { OnOk result (method_fault number pool.now at method.now ≡ None) }
    ensures codes { IfOk result (λ decoded. read_as decoded ≡ reading_of method.now) }
    ensures fault { IfErr result (IsRefusal (method_fault number pool.now at method.now)) }
{
    let Some(code) = code_of(method) else {
        return Ok(None);
    };
    let given = result_of(alloc, pool, method)?;
    match check_code(alloc, pool, given, code) {
        Ok(decoded) => Ok(Some(decoded)),
        Err(CodeRefusal::Fault(fault)) => {
            Err(AdmitError::BadCode(number, at, fault.at, fault.cause))
        }
        Err(CodeRefusal::NoMemory) => Err(AdmitError::NoMemory),
    }
}

/// The codes of the class's methods, in order, where none of them has a fault; None stands for a method without Code.
/// The class has this position among those given. A refusal is the first fault.
pub fn check_codes(
    alloc: Global,
    number: u32,
    class: &ClassFile,
) -> Result<Seq<Option<Code>>, AdmitError>
    requires { IsClassFile class.now }
    ensures fine { OnOk result (codes_fault number class.now ≡ None) }
    ensures codes { IfOk result (λ codes. map read_as codes ≡ readings_of class.now) }
    ensures fault { IfErr result (IsRefusal (codes_fault number class.now)) }
{
    let mut codes = Seq::new(alloc);
    for (at, method) in class.methods.as_slice().iter().enumerate() {
        let code = match check_method(alloc, number, &class.pool, at as u16, method) {
            Ok(code) => code,
            Err(error) => return Err(error),
        };
        codes.push(code)?;
    }
    Ok(codes)
}
