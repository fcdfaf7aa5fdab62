//! A generated program is made and admitted.

ghost use Rattle.std.specs.Prelude.{◌≡◌, ◌<◌, ◌≤◌, ◌^◌, length, map, IfOk, IfErr, IfSome, Ok};
ghost use Rattle.std.specs.List.{AllByRecursion};
ghost use Rattle.const_pool.specs.ClassFile.{IsClassFile, class_bytes};
ghost use Rattle.jvm_model.specs.Soundness.SoundPrograms.{IsHeapLimit};
ghost use Rattle.program_gen.specs.Generated.{classes_generated};
ghost use Rattle.admit_check.specs.Admission.{IsAdmittedProgram};
ghost use Rattle.generated_programs.specs.Admitted.{AreGeneratedFiles, NamesNoMethod, IsRefusedFor};
ghost use Rattle.generated_programs.specs.Admitted.{admission_of_generated, generated_contents};
ghost use Rattle.generated_programs.specs.Admitted.{main_name};

use admit_check::admit;
use class_writer::write_class;
use code_admission::AdmitError;
use const_pool::ClassFile;
use jf_bytes::{NoMemory, Seq};
use jvm_model::Program;
use plan_text::Plan;
use program_gen::{ClassName, class_text, generate};
use std::alloc::Global;

/// A generated program, and the bytes of its own classes: of GenMain, and of Gen0 and the others in their order.
#[derive(Drop)]
pub struct GeneratedProgram {
    pub contents: Seq<Seq<u8>>,
    pub program: Program,
}

/// The bytes of a class file.
fn bytes_of(alloc: Global, class: &ClassFile) -> Result<Seq<u8>, NoMemory>
    requires { IsClassFile class.now }
    ensures { IfOk result (λ bytes. bytes ≡ class_bytes class.now) }
{
    let bytes = write_class(alloc, class)?;
    Ok(Seq::from_vec(bytes))
}

/// The bytes of class files, in their order.
fn contents_of(alloc: Global, classes: &[ClassFile]) -> Result<Seq<Seq<u8>>, NoMemory>
    requires { AllByRecursion IsClassFile classes.now }
    ensures { IfOk result (λ contents. contents ≡ map class_bytes classes.now) }
{
    let mut contents = Seq::new(alloc);
    for class in classes {
        contents.push(bytes_of(alloc, class)?)?;
    }
    Ok(contents)
}

/// The program of these classes, which were generated for this seed and size.
fn admit_classes(
    alloc: Global,
    classes: Seq<ClassFile>,
    seed: u32,
    size: u32,
    plan: &Plan,
) -> Result<Program, AdmitError>
    requires some { 1 ≤ size }
    requires most { size ≤ 200 }
    requires classes { classes ≡ classes_generated seed size }
    requires formed { AllByRecursion IsClassFile classes }
    requires actions { length plan.now.actions < 2 ^ 32 }
    requires heap { IfSome plan.now.heap IsHeapLimit }
    ensures admitted { IfOk result (λ p. admission_of_generated seed size plan.now ≡ Ok p) }
    ensures refused { IfErr result (IsRefusedFor (admission_of_generated seed size plan.now)) }
    ensures sound { IfOk result (IsAdmittedProgram (classes_generated seed size) main_name) }
{
    let main = class_text(alloc, ClassName::Main)?;
    admit(alloc, classes, &main, plan)
}

/// Makes the program that the seed and the size decide, with the acts of a plan. The plan's main class and its budget
/// are not looked at. The program has all that the machine, the linker, the report and what rewrites classes ask of it.
pub fn admit_generated(
    alloc: Global,
    seed: u32,
    size: u32,
    plan: &Plan,
) -> Result<GeneratedProgram, AdmitError>
    requires some { 1 ≤ size }
    requires most { size ≤ 200 }
    requires actions { length plan.now.actions < 2 ^ 32 }
    requires heap { IfSome plan.now.heap IsHeapLimit }
    ensures contents { IfOk result (λ g. g.contents ≡ generated_contents seed size) }
    ensures files { IfOk result (λ g. AreGeneratedFiles seed size g.contents) }
    ensures admitted { IfOk result (λ g. admission_of_generated seed size plan.now ≡ Ok g.program) }
    ensures refused { IfErr result (IsRefusedFor (admission_of_generated seed size plan.now)) }
    ensures sound { IfOk result
        (λ g. IsAdmittedProgram (classes_generated seed size) main_name g.program) }
    ensures only { IfErr result NamesNoMethod }
{
    let classes = generate(alloc, seed, size)?;
    let contents = contents_of(alloc, classes.as_slice())?;
    match admit_classes(alloc, Seq::from_vec(classes), seed, size, plan) {
        Ok(program) => Ok(GeneratedProgram { contents, program }),
        Err(fault) => Err(fault),
    }
}
