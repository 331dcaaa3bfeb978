//! Declarations of a script's calls, the calls themselves, and a plan whose modules are boxed objects of
//! types of their own.
use std::alloc::Global;
use std::process::Abort;
use strm_head_calls::{Call, Request};
use strm_module::{BoxedModule, Instance, Kind, Module, Plain, Shape};
use strm_msg::NoMem;
use strm_run::ScriptCall;
use strm_script_parse::{CallDecl, Object, Plan, ProcessDecl, parse, with_modules};

/// A script with a push, and then another call.
const SCRIPT: &[u8] = b"stream s loop 16/4 16/4\nprocess p\npush s:b tee t - 5/4\nread s:a 7\n";

/// An object of a type of its own.
#[derive(Drop)]
struct Tee;

impl Module for Tee {}

/// The plan of the script.
fn plan(rt: &impl Abort, alloc: Global) -> Plan {
    parse(alloc, SCRIPT).ok().expect(rt, "a script")
}

/// The two calls of a plan.
fn calls_of<P: Drop>(rt: &impl Abort, plan: Plan<P>) -> (Call<P>, Call<P>) {
    let Plan {
        streams: _,
        mut processes,
        feeds: _,
        links: _,
    } = plan;
    let ProcessDecl {
        name: _,
        calls,
        expected: _,
        awaits: _,
    } = processes.pop().expect(rt, "a process");
    let (_, mut calls) = calls.into_blocks();
    let ScriptCall { stream: _, call } = calls.pop().expect(rt, "a call");
    let ScriptCall {
        stream: _,
        call: first,
    } = calls.pop().expect(rt, "a call before it");
    (first, call)
}

#[test]
fn calls_are_declared(rt: HostRuntime) {
    let (push, read): (CallDecl, CallDecl) = calls_of(&rt, plan(&rt, rt.alloc()));
    assert!(rt; read.push().is_none());
    let read: Call<BoxedModule<Plain>> = read.plain();
    assert!(rt; matches!(read.request, Request::Read { max: 7 }));

    let tee = Shape::new(1, b"t", None, Some((5, 4)), Kind::Tee).expect(&rt, "a shape");
    assert!(rt; push.push().is_some_and(|declared| *declared.shape() == tee));
    let module = BoxedModule::new(rt.alloc(), Instance::new(tee, Plain)).expect(&rt, "memory");
    let push = push.with_module(module);
    assert!(rt; push.push().is_some_and(|module| module.shape().serial == 1));
}

#[test]
fn modules_are_made(rt: HostRuntime) {
    let alloc = rt.alloc();
    let make = |shape: &Shape| -> Result<Object<Box<dyn Module>>, NoMem> {
        match shape.kind {
            Kind::Tee => Ok(Object::Made(Box::new(alloc, Tee)?)),
            _ => Ok(Object::Unmade),
        }
    };
    let made = with_modules(alloc, plan(&rt, alloc), &make)
        .ok()
        .expect(&rt, "memory");
    let (push, read) = calls_of(&rt, made);
    assert!(rt; push.push().is_some_and(|module| module.shape().serial == 1));
    assert!(rt; read.push().is_none());
}
