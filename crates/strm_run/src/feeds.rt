//! The feeders of a run, each with its feed or with the link that leads to its wire.
ghost use Rattle.std.specs.Prelude.{◌≡◌, ◌<◌, true, get_or, length, map, slice_set, None, Some, All, AllPairs, IfOk, OnOk};
ghost use Rattle.strm_msg.specs.Kind.{is_from_line};
ghost use Rattle.strm_run_input.specs.Resolve.{are_apart};
ghost use Rattle.strm_run.specs.Inside.Ending.{IsResult};
ghost use Rattle.strm_run.specs.Inside.Opening.{fed_lines, AreFeeders, AreFeeds, AreLeft};

use crate::table::empty_rows;
use std::alloc::Global;
use std::mem;
use strm_msg::{Message, NoMem};
use strm_run_callers::{FeedResult, Feeding, Joint, Of, Offered, OfferedFeeds, RunName};
use strm_run_input::{Feed, RunLink};
use strm_shared::Feeder;

/// The feed of each stream, in order of the streams. Fails only when memory runs out.
pub(crate) fn feeds_of(
    alloc: Global,
    feeds: Vec<Feed>,
    streams: usize,
) -> Result<Vec<Vec<Message>>, NoMem>
    requires there { All (λ feed. feed.stream < streams) feeds.items }
    requires once { AllPairs (λ one other. one.stream ≡ other.stream → ⊥) feeds.items }
    ensures { IfOk result (λ all. AreFeeds feeds.items streams all.items) }
{
    let mut all = empty_rows(alloc, streams)?;
    for feed in feeds {
        let Feed { stream, messages } = feed;
        all[stream as usize] = messages;
    }
    Ok(all)
}

/// Takes the feeder of a stream, if it is there.
fn take_feeder<K, N: RunName<K>>(
    feeders: &mut Vec<Option<Feeder<K, Of<N>>>>,
    number: u32,
) -> Option<Feeder<K, Of<N>>>
    requires { number < length feeders.old.items }
    ensures feeder { result ≡ get_or feeders.old.items number None }
    ensures others { feeders.new.items ≡ slice_set feeders.old.items number None }
{
    feeders[number as usize].take()
}

/// Takes the feeder of each wire to which a link leads, and gives it to the link. Fails only when memory runs
/// out.
pub(crate) fn joints<K, N: RunName<K>>(
    alloc: Global,
    feeders: &mut Vec<Option<Feeder<K, Of<N>>>>,
    links: Vec<RunLink>,
) -> Result<Vec<Joint<K, N>>, NoMem>
    requires links { N.run.links ≡ links.items }
    requires there { All (λ link. link.to < length N.run.setups) links.items }
    requires apart { AllPairs (λ one other. are_apart one other ≡ true) links.items }
    requires feeders { AreFeeders N.run feeders.old.items }
    ensures { OnOk result (AreLeft N.run N.run.links feeders.new.items) }
{
    let mut all = Vec::new(alloc);
    for link in links {
        if let Some(feeder) = take_feeder(feeders, link.to) {
            all.push(Joint::new(alloc, link, feeder)?)?;
        }
    }
    Ok(all)
}

/// A feeder for each line to which no link leads, in order of the streams, with the feed of the line. Fails
/// only when memory runs out.
pub(crate) fn feedings<K, N: RunName<K>>(
    alloc: Global,
    feeders: Vec<Option<Feeder<K, Of<N>>>>,
    mut feeds: Vec<Vec<Message>>,
) -> Result<Vec<Feeding<K, N>>, NoMem>
    requires feeders { AreLeft N.run N.run.links feeders.items }
    requires feeds { AreFeeds N.run.feeds (length N.run.setups) feeds.items }
    requires kinds { All (λ messages. All (λ m. is_from_line m.kind ≡ true) messages.items) feeds.items }
    ensures { IfOk result (λ all. map (λ feeding. feeding.number) all.items ≡ fed_lines N.run) }
{
    let mut all = Vec::new(alloc);
    let mut at: usize = 0;
    for feeder in feeders {
        if let Some(feeder) = feeder {
            let messages = mem::replace(&mut feeds[at], Vec::new(alloc));
            all.push(Feeding::new(feeder, messages))?;
        }
        at += 1;
    }
    Ok(all)
}

/// Which streams have no message to be offered, in order. Fails only when memory runs out.
pub(crate) fn unfed(alloc: Global, feeds: &[Vec<Message>]) -> Result<OfferedFeeds, NoMem> {
    let unfed = feeds.iter().map(|feed| feed.is_empty()).collect(alloc)?;
    Ok(OfferedFeeds::new(unfed))
}

/// No result yet, for each of so many streams. Fails only when memory runs out.
fn no_results<K, N: RunName<K>>(
    alloc: Global,
    streams: usize,
) -> Result<Vec<Option<FeedResult<K, N>>>, NoMem>
    ensures many { IfOk result (λ all. length all.items ≡ streams) }
    ensures none { IfOk result (λ all. All (λ one. one ≡ None) all.items) }
{
    let mut all = Vec::new(alloc);
    for _ in 0..streams {
        all.push(None)?;
    }
    Ok(all)
}

/// Puts the result of a feed to its stream.
fn put_result<K, N: RunName<K>>(all: &mut Vec<Option<FeedResult<K, N>>>, ended: FeedResult<K, N>)
    requires { ended.feed.number < length all.old.items }
    ensures { all.new.items ≡ slice_set all.old.items ended.feed.number (Some ended) }
{
    let at = ended.number() as usize;
    all[at] = Some(ended);
}

/// The result of each feed, in order of the streams: those of feeders, and those that accounts have carried;
/// nothing for a stream that has none. Fails only when memory runs out.
pub(crate) fn results_by_number<K, N: RunName<K>>(
    alloc: Global,
    offered: Vec<Offered<K, N>>,
    carried: Vec<FeedResult<K, N>>,
    streams: usize,
) -> Result<Vec<Option<FeedResult<K, N>>>, NoMem>
    requires many { length N.run.setups ≡ streams }
    requires there { All (λ ended. ended.feed.number < streams) carried.items }
    ensures many { IfOk result (λ all. length all.items ≡ streams) }
    ensures results { IfOk result (λ all. All (λ one. IsResult N.run carried.items one) all.items) }
{
    let mut all = no_results(alloc, streams)?;
    for one in offered {
        put_result(&mut all, one.into_result());
    }
    for ended in carried {
        put_result(&mut all, ended);
    }
    Ok(all)
}
