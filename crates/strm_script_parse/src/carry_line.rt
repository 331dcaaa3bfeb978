//! A carry line: NAME of a link, and COUNT, the number of carries.
ghost use Rattle.std.specs.Prelude.{◌≡◌, ◌<◌, ◌≤◌, ◌+◌, ◌^◌, ◌++◌, length, map, replicate, OnOk, IfOk};
ghost use Rattle.strm_script_parse.specs.Carries.{carrying_view, take_call};
ghost use Rattle.strm_script_parse.specs.Plan.{link_view};
ghost use Rattle.strm_script_parse.specs.Reading as reading;
ghost use Rattle.strm_script_parse.specs.declared.draft.TheConstants.{MOST_CALLS};
ghost use Rattle.strm_script_text.specs.Text.{texts_of};
ghost use Rattle.strm_script_words.specs.Fault.{Tells};

use crate::draft::MOST_CALLS;
use crate::plan::LinkDecl;
use std::alloc::Global;
use strm_head_calls::{Call, Request};
use strm_msg::{End, NoMem};
use strm_run_input::{Script, ScriptCall};
use strm_script_words::{Cause, number_at};

/// Some carries.
#[derive(Drop)]
pub(crate) struct Carries {
    /// The number of their link.
    pub(crate) link: usize,
    /// The number of the wire that it takes from.
    pub(crate) from: u32,
    /// How many they are.
    pub(crate) many: usize,
}

/// The number of the link of this name; nothing if there is none.
fn link_of(links: &[LinkDecl], wanted: &[u8]) -> Option<usize>
    ensures { result ≡ reading.link_of (map link_view links.now) wanted.now }
{
    links.iter().position(|link| wanted == link.name.as_slice())
}

/// The number of carries; one, if the field is left out.
fn count_at(texts: &[&[u8]]) -> Result<usize, Cause>
    ensures count { Tells (λ many. many) result (reading.count_at (texts_of texts.now)) }
    ensures few { IfOk result (λ many. many ≤ MOST_CALLS) }
{
    let [text, ..] = texts else {
        return Ok(1);
    };
    let many = number_at(text, MOST_CALLS as u64)?;
    if many < 1 {
        return Err(Cause::Number);
    }
    Ok(many as usize)
}

/// Whether this process carries on a link from this wire.
fn carries_from(process: u32, wire: u32, link: &LinkDecl) -> bool
    ensures { result ≡ reading.carries_from process wire (link_view link.now) }
{
    match link.by {
        Some(by) => process == by && wire == link.from,
        None => false,
    }
}

/// Whether this process carries on one of these links from this wire.
fn any_carries(links: &[LinkDecl], process: u32, wire: u32) -> bool
    ensures { result ≡ reading.any_carries (map link_view links.now) process wire }
{
    links.iter().any(|link| carries_from(process, wire, link))
}

/// Whether this process may carry on a link from this wire, on which `by` carries: no other process does, and
/// it carries on no other link from that wire.
fn may_carry(links: &[LinkDecl], process: u32, wire: u32, by: Option<u32>) -> bool
    ensures { result ≡ reading.may_carry (map link_view links.now) process wire by }
{
    match by {
        Some(by) => by == process,
        None => !any_carries(links, process, wire),
    }
}

/// So many carries of a process on the link of this number. Refused with `OutOfPlace` if it may not carry on
/// it, and with `TooMany` if it has too many calls then.
fn carrying(
    links: &[LinkDecl],
    process: u32,
    calls: usize,
    number: usize,
    link: &LinkDecl,
    many: usize,
) -> Result<Carries, Cause>
    requires { many ≤ MOST_CALLS }
    ensures carries { Tells carrying_view result
        (reading.carrying (map link_view links.now) process calls number (link_view link.now) many) }
    ensures few { IfOk result (λ carries. calls + carries.many ≤ MOST_CALLS) }
{
    if !may_carry(links, process, link.from, link.by) {
        return Err(Cause::OutOfPlace);
    }
    if calls > MOST_CALLS - many {
        return Err(Cause::TooMany);
    }
    Ok(Carries {
        link: number,
        from: link.from,
        many,
    })
}

/// The carries of a line with the name of a link, and with the number of carries if that is not left out.
fn carried_at(
    links: &[LinkDecl],
    process: u32,
    calls: usize,
    name: &[u8],
    texts: &[&[u8]],
) -> Result<Carries, Cause>
    ensures carries { Tells carrying_view result
        (reading.carried_at (map link_view links.now) process calls name.now (texts_of texts.now)) }
    ensures few { IfOk result (λ carries. calls + carries.many ≤ MOST_CALLS) }
{
    let Some(number) = link_of(links, name) else {
        return Err(Cause::NoSuch);
    };
    let many = count_at(texts)?;
    let Some(link) = links.get(number) else {
        return Err(Cause::NoSuch);
    };
    carrying(links, process, calls, number, link, many)
}

/// The carries of a line of this process, which has so many calls already, by the fields behind `carry`. Takes
/// no memory.
#[tactic(auto, unfolding(crate::specs::Reading::carry_at))]
pub(crate) fn carry_at(
    links: &[LinkDecl],
    process: u32,
    calls: usize,
    texts: &[&[u8]],
) -> Result<Carries, Cause>
    ensures carries { Tells carrying_view result
        (reading.carry_at (map link_view links.now) process calls (texts_of texts.now)) }
    ensures few { IfOk result (λ carries. calls + carries.many ≤ MOST_CALLS) }
{
    let [name, texts @ ..] = texts else {
        return Err(Cause::Fields);
    };
    if texts.len() > 1 {
        return Err(Cause::Fields);
    }
    carried_at(links, process, calls, name, texts)
}

/// Puts so many takes from a wire behind the calls of a process. Fails only when memory runs out.
pub(crate) fn push_takes<P: Drop>(
    alloc: Global,
    calls: &mut Script<P>,
    wire: u32,
    many: usize,
) -> Result<(), NoMem>
    requires { length calls.old + many ≤ MOST_CALLS }
    ensures { OnOk result (calls.new ≡ calls.old ++ replicate many (take_call wire)) }
{
    for _ in 0..many {
        let call = Call {
            end: End::A,
            request: Request::Take,
        };
        calls.push(alloc, ScriptCall { stream: wire, call })?;
    }
    Ok(())
}

/// Makes a process the carrier on the link of this number.
pub(crate) fn set_carrier(links: &mut [LinkDecl], number: usize, process: u32)
    ensures { map link_view links.new ≡ reading.carried_by process (map link_view links.old) number }
{
    if number < links.len() {
        links[number].by = Some(process);
    }
}
