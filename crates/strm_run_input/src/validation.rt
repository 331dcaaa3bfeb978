//! The conditions under which a run can be played: a possible number of workers, and all that scripts and
//! feeds name is there.
ghost use Rattle.std.specs.Prelude.{◌≡◌, ◌↔◌, true, All, AllPairs, slice_get};
ghost use Rattle.strm_run_input.specs.Resolve.{end_is_there, line_is_there, wire_is_there, link_is_there};
ghost use Rattle.strm_run_input.specs.Resolve.{are_apart, is_worker_count, is_setup};
ghost use Rattle.strm_run_input.specs.Resolve.{AreFromLine, CallsResolve, IsFromLine, LinksResolve, NamesResolve};

use crate::run_link::RunLink;
use crate::script::{Feed, Script, ScriptCall};
use strm_head_calls::Setup;
use strm_msg::End;

/// The most workers that a run has.
pub const MOST_WORKERS: u32 = 64;

/// Whether a run can be made of these streams: each low mark is below its high one, and the ring of each
/// line holds 1 to 4096 messages.
pub fn can_open_all(setups: &[Setup]) -> bool
    ensures { result ≡ true ↔ All (λ setup. is_setup setup ≡ true) setups.now }
{
    setups.iter().all(|setup| setup.is_fit() && setup.is_ring())
}

/// Whether each message of a feed is of a kind that comes from a line.
fn is_from_line(feed: &Feed) -> bool
    ensures { result ≡ true ↔ IsFromLine feed.now }
{
    feed.messages.iter().all(|m| m.from_line())
}

/// Whether each message of each feed is of a kind that comes from a line.
pub fn are_from_line(feeds: &[Feed]) -> bool
    ensures { result ≡ true ↔ AreFromLine feeds.now }
{
    for feed in feeds {
        if !is_from_line(feed) {
            return false;
        }
    }
    true
}

/// Whether a run has 1 to `MOST_WORKERS` workers.
pub fn is_worker_count(workers: u32) -> bool
    ensures { result ≡ is_worker_count workers }
{
    (1..=MOST_WORKERS).contains(&workers)
}

/// Whether a stream of this number has this end.
fn end_is_there(setups: &[Setup], stream: u32, end: End) -> bool
    ensures { result ≡ end_is_there (slice_get setups.now stream) end }
{
    match setups.get(stream as usize) {
        Some(setup) => setup.driver.has_end(end),
        None => false,
    }
}

/// Whether a stream of this number is a line.
fn line_is_there(setups: &[Setup], stream: u32) -> bool
    ensures { result ≡ line_is_there (slice_get setups.now stream) }
{
    match setups.get(stream as usize) {
        Some(setup) => setup.is_line(),
        None => false,
    }
}

/// Whether the stream and the end of each of these calls are there.
fn calls_resolve<P>(setups: &[Setup], calls: &[ScriptCall<P>]) -> bool
    ensures { result ≡ true ↔ CallsResolve setups.now calls.now }
{
    for one in calls {
        if !end_is_there(setups, one.stream, one.call.end) {
            return false;
        }
    }
    true
}

/// Whether the stream and the end of each call of these blocks are there.
fn blocks_resolve<P>(setups: &[Setup], blocks: &[Vec<ScriptCall<P>>]) -> bool
    ensures { result ≡ true ↔ All (λ block. CallsResolve setups.now block.items) blocks.now }
{
    for block in blocks {
        if !calls_resolve(setups, block.as_slice()) {
            return false;
        }
    }
    true
}

/// Whether the stream and the end of each call of a script are there.
fn script_resolves<P>(setups: &[Setup], script: &Script<P>) -> bool
    ensures { result ≡ true ↔ CallsResolve setups.now script.now }
{
    let (blocks, last) = script.blocks();
    blocks_resolve(setups, blocks) && calls_resolve(setups, last)
}

/// Whether the stream and the end of each call of each script are there.
fn scripts_resolve<P>(setups: &[Setup], scripts: &[Script<P>]) -> bool
    ensures { result ≡ true ↔ All (λ script. CallsResolve setups.now script) scripts.now }
{
    for script in scripts {
        if !script_resolves(setups, script) {
            return false;
        }
    }
    true
}

/// Whether each feed is for a line.
fn feeds_resolve(setups: &[Setup], feeds: &[Feed]) -> bool
    ensures { result ≡ true ↔ All (λ feed. line_is_there (slice_get setups.now feed.stream) ≡ true) feeds.now }
{
    for feed in feeds {
        if !line_is_there(setups, feed.stream) {
            return false;
        }
    }
    true
}

/// Whether no feed is for this stream.
fn has_no_feed(stream: u32, others: &[Feed]) -> bool
    ensures { result ≡ true ↔ All (λ other. stream ≡ other.stream → ⊥) others.now }
{
    others.iter().all(|other| other.stream != stream)
}

/// Whether no two feeds are for the same stream.
fn have_one_feed_each(feeds: &[Feed]) -> bool
    ensures { result ≡ true ↔ AllPairs (λ one other. one.stream ≡ other.stream → ⊥) feeds.now }
{
    for i in 0..feeds.len() {
        if !has_no_feed(feeds[i].stream, &feeds[i + 1..]) {
            return false;
        }
    }
    true
}

/// Whether a stream of this number is a wire.
fn wire_is_there(setups: &[Setup], stream: u32) -> bool
    ensures { result ≡ wire_is_there (slice_get setups.now stream) }
{
    match setups.get(stream as usize) {
        Some(setup) => setup.driver.is_wire(),
        None => false,
    }
}

/// Whether a link leads from a wire to a wire, and one of so many callers carries on it.
fn link_is_there(setups: &[Setup], callers: usize, link: &RunLink) -> bool
    ensures { result ≡ link_is_there setups.now callers link.now }
{
    wire_is_there(setups, link.from)
        && wire_is_there(setups, link.to)
        && (link.by as usize) < callers
}

/// Whether two links lead to two wires, and no caller carries on both from the same wire.
fn are_apart(one: &RunLink, other: &RunLink) -> bool
    ensures { result ≡ are_apart one.now other.now }
{
    one.to != other.to && (one.by != other.by || one.from != other.from)
}

/// Whether a link is apart from each of these.
fn is_apart_from_all(one: &RunLink, others: &[RunLink]) -> bool
    ensures { result ≡ true ↔ All (λ other. are_apart one.now other ≡ true) others.now }
{
    others.iter().all(|other| are_apart(one, other))
}

/// Whether each two of these links are apart.
fn all_are_apart(links: &[RunLink]) -> bool
    ensures { result ≡ true ↔ AllPairs (λ one other. are_apart one other ≡ true) links.now }
{
    for i in 0..links.len() {
        if !is_apart_from_all(&links[i], &links[i + 1..]) {
            return false;
        }
    }
    true
}

/// Whether links can be made: all is there that they name, and nothing else comes to the wires that they
/// lead to.
pub fn links_resolve(setups: &[Setup], callers: usize, feeds: &[Feed], links: &[RunLink]) -> bool
    ensures { result ≡ true ↔ LinksResolve setups.now callers feeds.now links.now }
{
    links
        .iter()
        .all(|link| link_is_there(setups, callers, link))
        && all_are_apart(links)
        && links.iter().all(|link| has_no_feed(link.to, feeds))
}

/// Whether all is there that scripts, feeds and links name, no line has two feeds, and links can be made.
pub fn names_resolve<P>(
    setups: &[Setup],
    scripts: &[Script<P>],
    feeds: &[Feed],
    links: &[RunLink],
) -> bool
    ensures { result ≡ true ↔ NamesResolve setups.now scripts.now feeds.now links.now }
{
    scripts_resolve(setups, scripts)
        && feeds_resolve(setups, feeds)
        && have_one_feed_each(feeds)
        && links_resolve(setups, scripts.len(), feeds, links)
}
