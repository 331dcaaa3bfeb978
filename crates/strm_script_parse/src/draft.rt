//! A plan while it is read, line by line.
ghost use Rattle.std.specs.Prelude.{◌≡◌, ◌≤◌, ◌<◌, ◌^◌, true, Ok, length, map, IsErrOf};
ghost use Rattle.strm_script_parse.specs.Plan.{call_view, draft_view, feed_view, plan_view, streams_of};
ghost use Rattle.strm_script_parse.specs.Reading as reading;
ghost use Rattle.strm_script_parse.specs.Reading.{IsTooLong, await_onto, call_onto, carry_onto, fed_onto};
ghost use Rattle.strm_script_parse.specs.Reading.{feed_onto, fields_onto, inner_onto, line_onto};
ghost use Rattle.strm_script_parse.specs.Reading.{link_onto, message_onto, process_line_onto, process_onto};
ghost use Rattle.strm_script_parse.specs.Reading.{setup_onto, stream_onto, word_onto};
ghost use Rattle.strm_script_parse.specs.Reads.{Becomes, Continues, ContinuesMemoryLast, Reads, TakesMemoryLast};
ghost use Rattle.strm_script_parse.specs.Section.{takes, with_calls};
ghost use Rattle.strm_script_text.specs.Text.{texts_of};
ghost use Rattle.strm_script_words.specs.Fault.{Gives};

use crate::call_line::{call_at, modules_after};
use crate::carry_line::{carry_at, push_takes, set_carrier};
use crate::declared::Declared;
use crate::expected::{add_expected, cut_replies};
use crate::link_line::{leads_to, link_at};
use crate::names::{add_stream, process_name, stream_name};
use crate::plan::{LinkDecl, Name, Plan, ProcessDecl};
use crate::setup::{arity, driver_at, setup_at};
use crate::target::stream_at;
use indexmap::IndexMap;
use std::alloc::Global;
use std::mem;
use strm_head_calls::Setup;
use strm_module::{BoxedModule, Driver};
use strm_run_input::{Await, Feed, Script};
use strm_script_text::cut_fields;
use strm_script_words::{
    Cause, MessageWord, PlayModule, ReadError, ReadKind, Verb, from_keyword, message_at,
};

/// The most streams of a plan.
const MOST_STREAMS: usize = 64;

/// The most processes of a plan.
const MOST_PROCESSES: usize = 256;

/// The most calls of a process.
pub(crate) const MOST_CALLS: usize = 65_536;

/// The most awaits of a process.
const MOST_AWAITS: usize = 65_536;

/// The most messages of a feed.
const MOST_MESSAGES: usize = 65_536;

/// The most links of a plan.
const MOST_LINKS: usize = 64;

/// The longest line, in bytes, without its LF and a CR before it.
const LONGEST_LINE: usize = 16_384;

/// The process or feed to which the next lines belong.
#[derive(Drop)]
enum Current<P> {
    /// Neither a process nor a feed.
    Nowhere,
    /// A process.
    Process(ProcessDecl<P>),
    /// A feed.
    Feed(Feed),
}

/// What was read of a plan, but for the process or feed that goes on.
#[derive(Drop)]
pub(crate) struct Ended<P> {
    /// The streams that were declared.
    streams: Declared,
    /// The processes that have ended.
    processes: Vec<ProcessDecl<P>>,
    /// The feeds that have ended.
    feeds: Vec<Feed>,
    /// The links.
    links: Vec<LinkDecl>,
    /// The number of modules that all processes have declared.
    modules: u64,
}

/// A plan while it is read.
#[derive(Drop)]
pub(crate) struct Draft<P> {
    /// What has ended.
    ended: Ended<P>,
    /// The process or feed that goes on.
    current: Current<P>,
}

/// Whether there is room for one more stream.
fn has_room(streams: &IndexMap<Name, Setup>) -> bool
    ensures { result ≡ reading.has_room (streams_of streams.now) }
{
    streams.len() < MOST_STREAMS
}

/// Whether the stream of this number has a feed.
pub(crate) fn has_feed(feeds: &[Feed], number: u32) -> bool
    ensures { result ≡ reading.has_feed (map feed_view feeds.now) number }
{
    feeds.iter().any(|feed| feed.stream == number)
}

/// Cuts a line into fields, in a list that is for them. The length of the line is checked first. A comment
/// begins with `#` and has no fields; nothing else of it is checked.
pub(crate) fn fields_in<'a>(line: &'a [u8], texts: &mut Vec<&'a [u8]>) -> Result<(), ReadError>
    ensures fields { Gives (λ _. texts_of texts.new.items) result (reading.fields_in line.now) }
    ensures length { IsTooLong line.now → IsErrOf result (ReadError.Fault Cause.TooLong) }
{
    if line.len() > LONGEST_LINE {
        return Err(ReadError::Fault(Cause::TooLong));
    }
    if line.first() == Some(&b'#') {
        texts.clear();
        return Ok(());
    }
    if !cut_fields(line, texts)? {
        return Err(ReadError::Fault(Cause::Byte));
    }
    Ok(())
}

/// Whether this is the word of an await.
fn is_await(word: &[u8]) -> bool
    ensures { result ≡ reading.is_await word.now }
{
    word == b"await".as_slice()
}

/// Whether this is the word of a carry.
fn is_carry(word: &[u8]) -> bool
    ensures { result ≡ reading.is_carry word.now }
{
    word == b"carry".as_slice()
}

/// Whether this is the word of a link.
fn is_link(word: &[u8]) -> bool
    ensures { result ≡ reading.is_link word.now }
{
    word == b"link".as_slice()
}

/// The cause of the fault of a word that cannot be at its place.
fn outside(word: &[u8]) -> Cause
    ensures { result ≡ reading.outside word.now }
{
    if from_keyword::<Verb>(word).is_some()
        || from_keyword::<MessageWord>(word).is_some()
        || is_await(word)
        || is_carry(word)
    {
        Cause::OutOfPlace
    } else {
        Cause::UnknownWord
    }
}

/// Reads a message of a feed.
#[tactic(auto, unfolding(crate::specs::Reading::message_onto))]
fn message_line(
    alloc: Global,
    feed: &mut Feed,
    word: MessageWord,
    texts: &[&[u8]],
) -> Result<(), ReadError>
    ensures { Gives (λ _. feed_view feed.new) result (message_onto (feed_view feed.old) word (texts_of texts.now)) }
{
    let message = message_at(alloc, word, texts)?;
    if feed.messages.len() >= MOST_MESSAGES {
        return Err(ReadError::Fault(Cause::TooMany));
    }
    feed.messages.push(message)?;
    Ok(())
}

/// Reads a line of a feed, by its word.
fn feed_word(alloc: Global, feed: &mut Feed, word: &[u8], texts: &[&[u8]]) -> Result<(), ReadError>
    ensures { Gives (λ _. feed_view feed.new) result (fed_onto (feed_view feed.old) word.now (texts_of texts.now)) }
{
    match from_keyword(word) {
        Some(word) => message_line(alloc, feed, word, texts),
        None => Err(ReadError::Fault(outside(word))),
    }
}

impl<M: PlayModule> Ended<BoxedModule<M>>
where
    M::Kind: ReadKind,
{
    /// Reads a call of a process, in the line of this number.
    #[tactic(auto, unfolding(crate::specs::Reading::call_onto))]
    fn call_line(
        &mut self,
        alloc: Global,
        number: u64,
        process: &mut ProcessDecl<BoxedModule<M>>,
        verb: Verb,
        texts: &[&[u8]],
    ) -> Result<(), ReadError>
        requires few { length self.old.streams.map.entries ≤ MOST_STREAMS }
        requires modules { self.old.modules < 2 ^ 63 }
        ensures { Continues (λ d process. call_onto M.Kind.words number d process verb)
            texts.now self.old process.old self.new process.new result }
    {
        let (texts, replies) = cut_replies(texts);
        let Declared { map, last } = &mut self.streams;
        let call = call_at(alloc, map, last, self.modules + 1, verb, texts, replies)?;
        let many = process.calls.len();
        if many >= MOST_CALLS {
            return Err(ReadError::Fault(Cause::TooMany));
        }
        add_expected(alloc, &mut process.expected, number, many, replies)?;
        process.calls.push(alloc, call)?;
        self.modules = modules_after(verb, self.modules);
        Ok(())
    }

    /// Reads the NAME of a line or a wire, whose feed the next call of a process awaits. Takes memory only if
    /// nothing is wrong.
    #[tactic(auto, unfolding(crate::specs::Reading::await_onto))]
    fn await_line(
        &self,
        process: &mut ProcessDecl<BoxedModule<M>>,
        texts: &[&[u8]],
    ) -> Result<(), ReadError>
        requires { length self.now.streams.map.entries ≤ MOST_STREAMS }
        ensures line { Continues await_onto texts.now self.now process.old self.now process.new result }
        ensures memory { ContinuesMemoryLast await_onto texts.now self.now process.old result }
    {
        let [name] = texts else {
            return Err(ReadError::Fault(Cause::Fields));
        };
        let Some((stream, driver)) = stream_at(&self.streams.map, &mut None, name) else {
            return Err(ReadError::Fault(Cause::NoSuch));
        };
        if !driver.is_line() {
            return Err(ReadError::Fault(Cause::OutOfPlace));
        }
        if process.awaits.len() >= MOST_AWAITS {
            return Err(ReadError::Fault(Cause::TooMany));
        }
        let call = process.calls.len();
        process.awaits.push(Await { call, stream })?;
        Ok(())
    }

    /// Reads the NAME of a link and the COUNT of carries on it, each of which is a take of a process. Takes
    /// memory only if nothing is wrong.
    #[tactic(auto, unfolding(crate::specs::Reading::carry_onto))]
    fn carry_line(
        &mut self,
        alloc: Global,
        process: &mut ProcessDecl<BoxedModule<M>>,
        texts: &[&[u8]],
    ) -> Result<(), ReadError>
        requires { length self.old.processes.items ≤ MOST_PROCESSES }
        ensures line { Continues carry_onto texts.now self.old process.old self.new process.new result }
        ensures memory { ContinuesMemoryLast carry_onto texts.now self.old process.old result }
    {
        let by = self.processes.len() as u32;
        let carries = carry_at(&self.links, by, process.calls.len(), texts)?;
        push_takes(alloc, &mut process.calls, carries.from, carries.many)?;
        set_carrier(&mut self.links, carries.link, by);
        Ok(())
    }

    /// Reads a line of a process, by its word.
    fn process_word(
        &mut self,
        alloc: Global,
        number: u64,
        process: &mut ProcessDecl<BoxedModule<M>>,
        word: &[u8],
        texts: &[&[u8]],
    ) -> Result<(), ReadError>
        requires few { length self.old.streams.map.entries ≤ MOST_STREAMS }
        requires processes { length self.old.processes.items ≤ MOST_PROCESSES }
        requires modules { self.old.modules < 2 ^ 63 }
        ensures { Continues (λ d process. process_line_onto M.Kind.words number d process word.now)
            texts.now self.old process.old self.new process.new result }
    {
        match from_keyword(word) {
            Some(verb) => self.call_line(alloc, number, process, verb, texts),
            None if is_await(word) => self.await_line(process, texts),
            None if is_carry(word) => self.carry_line(alloc, process, texts),
            None => Err(ReadError::Fault(outside(word))),
        }
    }
}

impl<M: PlayModule> Draft<BoxedModule<M>>
where
    M::Kind: ReadKind,
{
    /// A plan before its first line.
    pub(crate) fn new(alloc: Global) -> Draft<BoxedModule<M>>
        ensures { draft_view result ≡ reading.nothing_yet }
    {
        Draft {
            ended: Ended {
                streams: Declared {
                    map: IndexMap::new(alloc),
                    last: None,
                },
                processes: Vec::new(alloc),
                feeds: Vec::new(alloc),
                links: Vec::new(alloc),
                modules: 0,
            },
            current: Current::Nowhere,
        }
    }

    /// Ends the process or feed that goes on. Fails only when memory runs out.
    fn close(&mut self) -> Result<(), ReadError>
        ensures { Becomes (λ d. Ok (reading.ended d)) self.old self.new result }
    {
        match mem::replace(&mut self.current, Current::Nowhere) {
            Current::Nowhere => Ok(()),
            Current::Process(process) => Ok(self.ended.processes.push(process)?),
            Current::Feed(feed) => Ok(self.ended.feeds.push(feed)?),
        }
    }

    /// Reads a stream line, with the fields behind its driver. Takes memory only if nothing is wrong.
    fn add_setup(&mut self, driver: Driver, name: &[u8], texts: &[&[u8]]) -> Result<(), ReadError>
        ensures line { Reads (λ d. setup_onto d driver name.now) texts.now self.old self.new result }
        ensures memory { TakesMemoryLast (λ d. setup_onto d driver name.now) texts.now self.old result }
    {
        let chosen = stream_name(&self.ended.streams.map, name)?;
        let setup = setup_at(driver, texts)?;
        if !has_room(&self.ended.streams.map) {
            return Err(ReadError::Fault(Cause::TooMany));
        }
        self.ended.streams.last = None;
        add_stream(&mut self.ended.streams.map, chosen, setup)
    }

    /// Reads NAME DRIVER H D, and RING for a line or a wire. The driver is checked before the number of
    /// fields. Takes memory only if nothing is wrong.
    #[tactic(auto, unfolding(crate::specs::Reading::stream_onto))]
    fn stream_line(&mut self, texts: &[&[u8]]) -> Result<(), ReadError>
        ensures line { Reads stream_onto texts.now self.old self.new result }
        ensures memory { TakesMemoryLast stream_onto texts.now self.old result }
    {
        let [name, driver, texts @ ..] = texts else {
            return Err(ReadError::Fault(Cause::Fields));
        };
        let driver = driver_at(driver)?;
        if texts.len() != arity(driver) {
            return Err(ReadError::Fault(Cause::Fields));
        }
        self.add_setup(driver, name, texts)
    }

    /// Reads the NAME of a process, which goes on from here. Takes no memory.
    #[tactic(auto, unfolding(crate::specs::Reading::process_onto))]
    fn process_line(&mut self, alloc: Global, texts: &[&[u8]]) -> Result<(), ReadError>
        ensures line { Reads process_onto texts.now self.old self.new result }
        ensures memory { IsErrOf result ReadError.Memory → ⊥ }
    {
        let [name] = texts else {
            return Err(ReadError::Fault(Cause::Fields));
        };
        let name = process_name(&self.ended.processes, name)?;
        if self.ended.processes.len() >= MOST_PROCESSES {
            return Err(ReadError::Fault(Cause::TooMany));
        }
        self.current = Current::Process(ProcessDecl {
            name,
            calls: Script::new(alloc),
            expected: Vec::new(alloc),
            awaits: Vec::new(alloc),
        });
        Ok(())
    }

    /// Reads the NAME of a line or a wire, whose feed goes on from here. No link leads to it. Takes
    /// no memory.
    #[tactic(auto, unfolding(crate::specs::Reading::feed_onto))]
    fn feed_line(&mut self, alloc: Global, texts: &[&[u8]]) -> Result<(), ReadError>
        requires { length self.old.ended.streams.map.entries ≤ MOST_STREAMS }
        ensures line { Reads feed_onto texts.now self.old self.new result }
        ensures memory { IsErrOf result ReadError.Memory → ⊥ }
    {
        let [name] = texts else {
            return Err(ReadError::Fault(Cause::Fields));
        };
        let Some((stream, driver)) = stream_at(&self.ended.streams.map, &mut None, name) else {
            return Err(ReadError::Fault(Cause::NoSuch));
        };
        if !driver.is_line()
            || has_feed(&self.ended.feeds, stream)
            || leads_to(&self.ended.links, stream)
        {
            return Err(ReadError::Fault(Cause::OutOfPlace));
        }
        let messages = Vec::new(alloc);
        self.current = Current::Feed(Feed { stream, messages });
        Ok(())
    }

    /// Reads NAME, FROM and TO of a link, and its rule. Takes memory only if nothing is wrong.
    #[tactic(auto, unfolding(crate::specs::Reading::link_onto))]
    fn link_line(&mut self, texts: &[&[u8]]) -> Result<(), ReadError>
        requires { length self.old.ended.streams.map.entries ≤ MOST_STREAMS }
        ensures line { Reads link_onto texts.now self.old self.new result }
        ensures memory { TakesMemoryLast link_onto texts.now self.old result }
    {
        let streams = &self.ended.streams;
        let link = link_at(&streams.map, &self.ended.feeds, &self.ended.links, texts)?;
        if self.ended.links.len() >= MOST_LINKS {
            return Err(ReadError::Fault(Cause::TooMany));
        }
        self.ended.links.push(link)?;
        Ok(())
    }

    /// Reads a line of the process or feed that goes on, by its word.
    fn inner_line(
        &mut self,
        alloc: Global,
        number: u64,
        word: &[u8],
        texts: &[&[u8]],
    ) -> Result<(), ReadError>
        requires few { length self.old.ended.streams.map.entries ≤ MOST_STREAMS }
        requires processes { length self.old.ended.processes.items ≤ MOST_PROCESSES }
        requires modules { self.old.ended.modules < 2 ^ 63 }
        ensures { Reads (λ d. inner_onto M.Kind.words number d d.place word.now)
            texts.now self.old self.new result }
    {
        match &mut self.current {
            Current::Nowhere => Err(ReadError::Fault(outside(word))),
            Current::Process(process) => {
                self.ended.process_word(alloc, number, process, word, texts)
            }
            Current::Feed(feed) => feed_word(alloc, feed, word, texts),
        }
    }

    /// Reads the line of this number, by its word.
    #[tactic(auto, unfolding(crate::specs::Reading::word_onto))]
    fn word_line(
        &mut self,
        alloc: Global,
        number: u64,
        word: &[u8],
        texts: &[&[u8]],
    ) -> Result<(), ReadError>
        requires few { length self.old.ended.streams.map.entries ≤ MOST_STREAMS }
        requires processes { length self.old.ended.processes.items ≤ MOST_PROCESSES }
        requires modules { self.old.ended.modules < 2 ^ 63 }
        ensures { Reads (λ d. word_onto M.Kind.words number d word.now) texts.now self.old self.new result }
    {
        if word == b"stream".as_slice() {
            self.close()?;
            return self.stream_line(texts);
        }
        if word == b"process".as_slice() {
            self.close()?;
            return self.process_line(alloc, texts);
        }
        if word == b"feed".as_slice() {
            self.close()?;
            return self.feed_line(alloc, texts);
        }
        if is_link(word) {
            self.close()?;
            return self.link_line(texts);
        }
        self.inner_line(alloc, number, word, texts)
    }

    /// Reads the line of this number, by its fields. A line without fields adds nothing.
    fn fields_line(&mut self, alloc: Global, number: u64, texts: &[&[u8]]) -> Result<(), ReadError>
        requires few { length self.old.ended.streams.map.entries ≤ MOST_STREAMS }
        requires processes { length self.old.ended.processes.items ≤ MOST_PROCESSES }
        requires modules { self.old.ended.modules < 2 ^ 63 }
        ensures { Reads (fields_onto M.Kind.words number) texts.now self.old self.new result }
    {
        match texts {
            [] => Ok(()),
            [word, texts @ ..] => self.word_line(alloc, number, word, texts),
        }
    }

    /// Reads the line of this number, from 1. The list is for its fields, so that not each line takes memory
    /// for them.
    #[tactic(auto, unfolding(crate::specs::Reading::line_onto))]
    pub(crate) fn line<'a>(
        &mut self,
        alloc: Global,
        number: u64,
        line: &'a [u8],
        texts: &mut Vec<&'a [u8]>,
    ) -> Result<(), ReadError>
        requires few { length self.old.ended.streams.map.entries ≤ MOST_STREAMS }
        requires processes { length self.old.ended.processes.items ≤ MOST_PROCESSES }
        requires modules { self.old.ended.modules < 2 ^ 63 }
        ensures line { Becomes (λ d. line_onto M.Kind.words number d line.now) self.old self.new result }
        ensures length { IsTooLong line.now → IsErrOf result (ReadError.Fault Cause.TooLong) }
    {
        fields_in(line, texts)?;
        self.fields_line(alloc, number, texts.as_slice())
    }

    /// Whether a process goes on that has no call yet and may have that many.
    pub(crate) fn takes(&self, many: usize) -> bool
        ensures { result ≡ takes (draft_view self.now).place many }
    {
        match &self.current {
            Current::Process(process) => process.calls.is_empty() && many <= MOST_CALLS,
            Current::Nowhere | Current::Feed(_) => false,
        }
    }

    /// Gives the process that goes on these calls.
    pub(crate) fn set_calls(&mut self, calls: Script<BoxedModule<M>>)
        requires { takes (draft_view self.old).place (length calls) ≡ true }
        ensures { draft_view self.new ≡ with_calls (draft_view self.old) (map call_view calls) }
    {
        if let Current::Process(process) = &mut self.current {
            process.calls = calls;
        }
    }

    /// The setup of each stream that was declared so far, by its name.
    pub(crate) fn streams(&self) -> &IndexMap<Name, Setup>
        ensures { streams_of result.now ≡ (draft_view self.now).streams }
    {
        &self.ended.streams.map
    }

    /// The plan that the lines make. Fails only when memory runs out.
    pub(crate) fn finish(mut self) -> Result<Plan<BoxedModule<M>>, ReadError>
        ensures { Gives plan_view result (Ok (reading.plan_of (draft_view self))) }
    {
        self.close()?;
        let Ended {
            streams,
            processes,
            feeds,
            links,
            modules: _,
        } = self.ended;
        let Declared { map, last: _ } = streams;
        Ok(Plan {
            streams: map,
            processes,
            feeds,
            links,
        })
    }
}
