//! The modules of a plan's declarations.
ghost use Rattle.std.specs.Prelude.{◌≡◌, IfOk, OnOk};
ghost use Rattle.strm_script_parse.specs.RunInput.{calls_of_blocks};

use crate::plan::{Plan, ProcessDecl};
use std::alloc::Global;
use strm_head_calls::{Call, Request};
use strm_module::{BoxedModule, Instance, ModuleOf, Shape};
use strm_msg::NoMem;
use strm_run_input::{Script, ScriptCall};

/// A module of a declared shape, with an object that is made for it. Fails only when memory runs out.
fn module<M: ModuleOf, F: Fn(&Shape<M::Kind>) -> Result<M, NoMem>>(
    alloc: Global,
    declared: &BoxedModule<M>,
    make: &F,
) -> Result<BoxedModule<M>, NoMem>
    requires { F.IsAlwaysCallable make.now }
    ensures { IfOk result (λ made. made ≡ declared.now) }
{
    let shape = declared.shape();
    let object = make(shape)?;
    BoxedModule::new(alloc, Instance::new(shape.copy(alloc)?, object))
}

/// Makes the module of a call, if it is a push. Fails only when memory runs out.
fn make_call<M: ModuleOf, F: Fn(&Shape<M::Kind>) -> Result<M, NoMem>>(
    alloc: Global,
    call: &mut Call<BoxedModule<M>>,
    make: &F,
) -> Result<(), NoMem>
    requires { F.IsAlwaysCallable make.now }
    ensures { call.new ≡ call.old }
{
    if let Request::Push { instance } = &mut call.request {
        let made = module(alloc, instance, make)?;
        *instance = made;
    }
    Ok(())
}

/// Makes the modules of calls. Fails only when memory runs out.
fn make_calls<M: ModuleOf, F: Fn(&Shape<M::Kind>) -> Result<M, NoMem>>(
    alloc: Global,
    lines: &mut [ScriptCall<BoxedModule<M>>],
    make: &F,
) -> Result<(), NoMem>
    requires { F.IsAlwaysCallable make.now }
    ensures { OnOk result (lines.new ≡ lines.old) }
{
    for line in lines.iter_mut() {
        make_call(alloc, &mut line.call, make)?;
    }
    Ok(())
}

/// Makes the modules of blocks of calls. Fails only when memory runs out.
fn make_blocks<M: ModuleOf, F: Fn(&Shape<M::Kind>) -> Result<M, NoMem>>(
    alloc: Global,
    blocks: &mut [Vec<ScriptCall<BoxedModule<M>>>],
    make: &F,
) -> Result<(), NoMem>
    requires { F.IsAlwaysCallable make.now }
    ensures { OnOk result (calls_of_blocks blocks.new ≡ calls_of_blocks blocks.old) }
{
    for block in blocks.iter_mut() {
        make_calls(alloc, block.as_mut_slice(), make)?;
    }
    Ok(())
}

/// The calls of a process, in order, with their modules made. Fails only when memory runs out.
fn script<M: ModuleOf, F: Fn(&Shape<M::Kind>) -> Result<M, NoMem>>(
    alloc: Global,
    declared: Script<BoxedModule<M>>,
    make: &F,
) -> Result<Script<BoxedModule<M>>, NoMem>
    requires { F.IsAlwaysCallable make.now }
    ensures { IfOk result (λ made. made ≡ declared) }
{
    let many = declared.len();
    let (mut full, mut last) = declared.into_blocks();
    make_blocks(alloc, full.as_mut_slice(), make)?;
    make_calls(alloc, last.as_mut_slice(), make)?;
    Ok(Script::of_blocks(alloc, full, last, many))
}

/// The processes, in order, with their modules made. Fails only when memory runs out.
fn processes<M: ModuleOf, F: Fn(&Shape<M::Kind>) -> Result<M, NoMem>>(
    alloc: Global,
    declared: Vec<ProcessDecl<BoxedModule<M>>>,
    make: &F,
) -> Result<Vec<ProcessDecl<BoxedModule<M>>>, NoMem>
    requires { F.IsAlwaysCallable make.now }
    ensures { IfOk result (λ made. made.items ≡ declared.items) }
{
    let mut made = Vec::with_capacity(alloc, declared.len())?;
    for process in declared {
        let ProcessDecl {
            name,
            calls,
            expected,
            awaits,
        } = process;
        let calls = script(alloc, calls, make)?;
        made.push(ProcessDecl {
            name,
            calls,
            expected,
            awaits,
        })?;
    }
    Ok(made)
}

/// A plan of declarations with its modules made: each push has a module of the shape that it declares, with
/// the object that is made for it. Everything else stays as it is in the plan.
///
/// A program whose modules have objects of several types boxes them itself, in the function that calls this:
///
/// ```
/// let make = |shape: &Shape| -> Result<Object<Box<dyn Module>>, NoMem> {
///     match shape.kind {
///         Kind::Tee => Ok(Object::Made(Box::new(alloc, Tee)?)),
///         _ => Ok(Object::Unmade),
///     }
/// };
/// let plan = with_modules(alloc, plan, &make)?;
/// ```
///
/// Fails only when memory runs out.
pub fn with_modules<M: ModuleOf, F: Fn(&Shape<M::Kind>) -> Result<M, NoMem>>(
    alloc: Global,
    plan: Plan<BoxedModule<M>>,
    make: &F,
) -> Result<Plan<BoxedModule<M>>, NoMem>
    requires { F.IsAlwaysCallable make.now }
    ensures streams { IfOk result (λ made. made.streams ≡ plan.streams) }
    ensures processes { IfOk result (λ made. made.processes.items ≡ plan.processes.items) }
    ensures feeds { IfOk result (λ made. made.feeds ≡ plan.feeds) }
    ensures links { IfOk result (λ made. made.links ≡ plan.links) }
{
    let Plan {
        streams,
        processes: declared,
        feeds,
        links,
    } = plan;
    let processes = processes(alloc, declared, make)?;
    Ok(Plan {
        streams,
        processes,
        feeds,
        links,
    })
}
