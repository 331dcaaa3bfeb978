//! Read: takes the bytes of the messages at the head, and puts back the rest of them.
ghost use Rattle.std.specs.Prelude.{◌≡◌, ◌<◌, true, Some, [], is_some, IsOk, ◌≤◌, ◌++◌, OnOk, OnErr, IfOk, IfSome, length, take, drop, slice_get, option_copied};
ghost use Rattle.strm_msg.specs.Message.{part_len};
ghost use Rattle.strm_chain_ends.specs.Image.{end_of, KeepsHeadRoom};
ghost use Rattle.strm_head_calls.specs.declared.answer.Reply.TheVariants as Replies;
ghost use Rattle.strm_head_calls.specs.Refusal.{first_that_holds};
ghost use Rattle.strm_head_read.specs.Read.{bytes_in, bytes_read, is_unread, goes_on_to, reached, whole_in, rest_of, read_of, read_refusals, read_effect, without_first, with_rest, bytes_of_first, bytes_reached, IsAlone, IsReadAlone, LeavesAsRead, SaysData};

use std::alloc::Global;
use strm_chain::Chain;
use strm_head_calls::{Cut, Refusal, Reply, ReplyForm};
use strm_module::ModuleOf;
use strm_msg::{BoxedMessage, Bytes, End, Message, NoMem, Prot, ReadMode};
use strm_queue::BandQueue;

/// The bytes of the messages that a read gives whole, and the number of these messages.
#[derive(Drop)]
struct WholeMessages {
    bytes: Vec<u8>,
    count: usize,
}

/// The bytes that a read copies out of messages, the number of messages that it takes away, and the message
/// that it puts back of the last of them.
#[derive(Drop)]
struct Gathered {
    bytes: Vec<u8>,
    gone: usize,
    rest: Option<Message>,
}

/// The bytes that a read gives, the number of messages that it takes away, and the message that it puts back
/// of the last of them.
#[derive(Drop)]
struct ReadResult {
    bytes: Bytes,
    gone: usize,
    rest: Option<Message>,
}

/// The number of bytes of a part, 0 where there is none.
fn part_len(part: &Option<Bytes>) -> usize
    ensures { result ≡ part_len part.now }
{
    match part {
        Some(bytes) => bytes.len(),
        None => 0,
    }
}

/// The number of bytes that a read gives of a message.
fn size_read(prot: Prot, m: &Message) -> u128
    ensures { result ≡ length (bytes_read prot m.now) }
{
    match prot {
        Prot::Dat => part_len(&m.ctl) as u128 + part_len(&m.dat) as u128,
        Prot::Norm | Prot::Dis => part_len(&m.dat) as u128,
    }
}

/// Whether a read under the norm protocol does not read the message, as it has control.
fn is_unread(prot: Prot, m: &Message) -> bool
    ensures { result ≡ is_unread prot m.now }
{
    prot == Prot::Norm && m.ctl.is_some()
}

/// Whether a read that has read bytes goes on to the message.
fn goes_on_to(prot: Prot, m: &Message) -> bool
    ensures { result ≡ goes_on_to prot m.now }
{
    size_read(prot, m) > 0 && !is_unread(prot, m)
}

/// The message at a place, if a read may reach it. It may reach those before it.
#[inline(always)]
fn reached_at<'a>(queue: &'a BandQueue, mode: ReadMode, prot: Prot, i: usize) -> Option<&'a Message>
    requires { i ≤ length (reached mode prot queue.now.messages) }
    ensures { option_copied result ≡ slice_get (reached mode prot queue.now.messages) i }
{
    let first = queue.first()?;
    if i == 0 {
        return Some(first);
    }
    if mode != ReadMode::Rnorm || size_read(prot, first) == 0 {
        return None;
    }
    match queue.at(i) {
        Some(m) if goes_on_to(prot, m) => Some(m),
        _ => None,
    }
}

/// Adds the bytes of a part, at most `most` of them.
fn add_part(out: &mut Vec<u8>, part: &Option<Bytes>, most: usize) -> Result<(), NoMem>
    ensures { OnOk result (out.new.items ≡ out.old.items ++ take most (bytes_in part.now)) }
{
    if let Some(bytes) = part {
        let end = bytes.len().min(most);
        out.extend_from_slice(&bytes.as_slice()[..end])?;
    }
    Ok(())
}

/// Adds the bytes that a read gives of a message, at most `most` of them.
fn add_bytes(out: &mut Vec<u8>, prot: Prot, m: &Message, most: usize) -> Result<(), NoMem>
    ensures { OnOk result (out.new.items ≡ out.old.items ++ take most (bytes_read prot m.now)) }
{
    match prot {
        Prot::Norm | Prot::Dis => add_part(out, &m.dat, most)?,
        Prot::Dat => {
            add_part(out, &m.ctl, most)?;
            add_part(out, &m.dat, most.saturating_sub(part_len(&m.ctl)))?;
        }
    }
    Ok(())
}

/// The messages that a read of at most `max` bytes gives whole. The next one's number is one too, as
/// there are few enough.
fn whole_of(
    alloc: Global,
    queue: &BandQueue,
    mode: ReadMode,
    prot: Prot,
    max: u16,
) -> Result<WholeMessages, NoMem>
    ensures count { IfOk result (λ whole. whole.count ≡ whole_in prot max (reached mode prot queue.now.messages)) }
    ensures bytes { IfOk result (λ whole. whole.bytes.items ≡ bytes_reached mode prot whole.count queue.now.messages) }
    ensures within { IfOk result (λ whole. whole.count ≤ length (reached mode prot queue.now.messages)) }
    ensures most { IfOk result (λ whole. length whole.bytes.items ≤ max) }
    ensures few { IfOk result (λ whole. length queue.now.messages ≤ usize.MAX) }
{
    let mut bytes = Vec::new(alloc);
    let len = queue.len();
    for i in 0..len {
        let left = usize::from(max) - bytes.len();
        match reached_at(queue, mode, prot, i) {
            Some(m) if size_read(prot, m) <= left as u128 => {
                add_bytes(&mut bytes, prot, m, left)?;
            }
            _ => return Ok(WholeMessages { bytes, count: i }),
        }
    }
    Ok(WholeMessages { bytes, count: len })
}

/// The rest of the data of a message of which `n` bytes are read and whose control is dropped.
fn data_behind(alloc: Global, m: &Message, n: u16) -> Result<Option<Message>, NoMem>
    ensures { IfOk result (λ rest. rest ≡ rest_of ReadMode.Rnorm Prot.Dis n m.now) }
{
    let Some(dat) = &m.dat else { return Ok(None) };
    let n = usize::from(n);
    if dat.len() <= n {
        return Ok(None);
    }
    Ok(Some(Message::of_bytes(m.band, dat.slice(alloc, n, dat.len())?)))
}

/// The rest of a message of which `n` bytes are read, and not all.
fn rest_of(
    alloc: Global,
    mode: ReadMode,
    prot: Prot,
    n: u16,
    m: &Message,
) -> Result<Option<Message>, NoMem>
    ensures { IfOk result (λ rest. rest ≡ rest_of mode prot n m.now) }
{
    if mode == ReadMode::Rmsgd {
        return Ok(None);
    }
    match prot {
        Prot::Norm => Ok(Cut::of(alloc, m, None, Some(n))?.rest),
        Prot::Dat => {
            let left = usize::from(n).saturating_sub(part_len(&m.ctl));
            Ok(Cut::of(alloc, m, Some(n), Some(left as u16))?.rest)
        }
        Prot::Dis => data_behind(alloc, m, n),
    }
}

/// The first message, if a read takes bytes of it alone, and it has data and no control.
fn read_alone(queue: &BandQueue, mode: ReadMode, prot: Prot, max: u16) -> Option<&Message>
    requires { 0 < max }
    ensures { IfSome result (λ m. IsReadAlone mode prot max queue.now.messages m.now) }
{
    let first = queue.first()?;
    if first.ctl.is_some() {
        return None;
    }
    let Some(dat) = &first.dat else {
        return None;
    };
    if dat.len() > usize::from(max) {
        return Some(first);
    }
    match reached_at(queue, mode, prot, 1) {
        Some(_) => None,
        None => Some(first),
    }
}

/// The bytes of the first message that a read takes bytes of alone. It shares them.
fn found_in_first(
    alloc: Global,
    first: &Message,
    mode: ReadMode,
    max: u16,
) -> Result<ReadResult, NoMem>
    ensures bytes { IfOk result (λ found. found.bytes ≡ take max (bytes_in first.now.dat)) }
    ensures gone { IfOk result (λ found. found.gone ≡ 1) }
    ensures rest { IfOk result (λ found. found.rest ≡ rest_of mode Prot.Dis max first.now) }
{
    let bytes = match &first.dat {
        Some(dat) => dat.slice(alloc, 0, dat.len().min(usize::from(max)))?,
        None => Bytes::empty(),
    };
    let rest = match mode {
        ReadMode::Rmsgd => None,
        ReadMode::Rnorm | ReadMode::Rmsgn => data_behind(alloc, first, max)?,
    };
    Ok(ReadResult {
        bytes,
        gone: 1,
        rest,
    })
}

/// The bytes that a read of at most `max` bytes copies out of messages, and the outcome of the messages.
fn gather(
    alloc: Global,
    queue: &BandQueue,
    mode: ReadMode,
    prot: Prot,
    max: u16,
) -> Result<Gathered, NoMem>
    ensures bytes { IfOk result (λ all. all.bytes.items ≡ (read_of mode prot max queue.now.messages).bytes) }
    ensures stays { IfOk result (λ all. LeavesAsRead mode prot max queue.now.messages all.gone all.rest) }
{
    let WholeMessages { mut bytes, count } = whole_of(alloc, queue, mode, prot, max)?;
    let left = max - bytes.len() as u16;
    match reached_at(queue, mode, prot, count) {
        Some(m) if left > 0 => {
            add_bytes(&mut bytes, prot, m, usize::from(left))?;
            let rest = rest_of(alloc, mode, prot, left, m)?;
            Ok(Gathered {
                bytes,
                gone: count + 1,
                rest,
            })
        }
        _ => Ok(Gathered {
            bytes,
            gone: count,
            rest: None,
        }),
    }
}

/// The bytes that a read of at most `max` bytes gives, and the outcome of the messages. Those of a message
/// that it reads alone are shared, and others are copied.
fn found_in(
    alloc: Global,
    queue: &BandQueue,
    mode: ReadMode,
    prot: Prot,
    max: u16,
) -> Result<ReadResult, NoMem>
    requires { 0 < max }
    ensures bytes { IfOk result (λ found. found.bytes ≡ (read_of mode prot max queue.now.messages).bytes) }
    ensures stays { IfOk result (λ found. LeavesAsRead mode prot max queue.now.messages found.gone found.rest) }
{
    if let Some(first) = read_alone(queue, mode, prot, max) {
        return found_in_first(alloc, first, mode, max);
    }
    let Gathered { bytes, gone, rest } = gather(alloc, queue, mode, prot, max)?;
    match Bytes::from_vec(alloc, bytes) {
        Ok(bytes) => Ok(ReadResult { bytes, gone, rest }),
        Err(wanting) => {
            drop(rest);
            Err(wanting)
        }
    }
}

/// Takes the first `count` messages of a head away.
fn take_away<M: ModuleOf>(chain: &mut Chain<M>, end: End, count: usize)
    ensures image { chain.new.image ≡ without_first chain.old.image end count }
    ensures room { KeepsHeadRoom chain.old.rooms chain.new.rooms }
{
    for _i in 0..count {
        drop(chain.take_head(end));
    }
}

/// Takes the first messages of a head away, and puts their rest back.
fn replace_front<M: ModuleOf>(
    chain: &mut Chain<M>,
    end: End,
    gone: usize,
    rest: Option<Message>,
) -> Result<(), NoMem>
    ensures ok { OnOk result (chain.new.image ≡ with_rest chain.old.image end gone rest) }
    ensures err { OnErr result (chain.new.image ≡ chain.old.image) }
{
    let Some(rest) = rest else {
        take_away(chain, end, gone);
        return Ok(());
    };
    let rest = BoxedMessage::new(chain.alloc(), rest)?;
    chain.head_room(end, rest.rank())?;
    take_away(chain, end, gone);
    chain.put_back_head(end, rest).unwrap();
    Ok(())
}

/// The first of a read's own refusals that holds: EBADMSG for a first message with control under the
/// norm protocol, and EAGAIN where no message is there and the end is not hung up (read(2)). A read
/// of no bytes has none.
pub fn read_refusal<M: ModuleOf>(chain: &Chain<M>, end: End, max: u16) -> Option<Refusal>
    ensures { result ≡ first_that_holds (read_refusals chain.now.image end max) }
{
    let state = chain.state(end);
    match chain.head(end).first() {
        _ if max == 0 => None,
        Some(m) if is_unread(state.prot, m) => Some(Refusal::BadMessage),
        None if !state.hung => Some(Refusal::WouldWait),
        _ => None,
    }
}

/// The reply of a read of nothing. Takes no memory.
fn nothing_read() -> Reply
    ensures { result ≡ Replies.Read [] }
{
    Reply::Read {
        dat: Bytes::empty(),
    }
}

/// Takes the first message of a head away, which has data, and gives these as they are. Takes no memory.
fn take_data<M: ModuleOf>(chain: &mut Chain<M>, end: End) -> Bytes
    requires { is_some (bytes_of_first (end_of chain.old.image end).head) ≡ true }
    ensures data { bytes_of_first (end_of chain.old.image end).head ≡ Some result }
    ensures image { chain.new.image ≡ without_first chain.old.image end 1 }
{
    let dat = match chain.take_head(end) {
        Some(m) => m.into_message().dat,
        None => unreachable!(),
    };
    match dat {
        Some(dat) => dat,
        None => unreachable!(),
    }
}

/// Whether one message waits, which has data alone, and a read of at most `max` bytes gives them all.
fn is_single_data(queue: &BandQueue, max: u16) -> bool
    ensures { result ≡ true → IsAlone max queue.now.messages }
{
    let Some(m) = queue.first() else {
        return false;
    };
    if m.ctl.is_some() {
        return false;
    }
    let Some(dat) = &m.dat else {
        return false;
    };
    queue.len() == 1 && dat.len() <= usize::from(max)
}

/// Returns the data of the one message that waits, as it has them, and takes the message away. Takes no
/// memory.
fn move_single<M: ModuleOf, A: ReplyForm>(chain: &mut Chain<M>, end: End) -> Result<A, NoMem>
    requires alone { A.is_alone ≡ true }
    requires data { is_some (bytes_of_first (end_of chain.old.image end).head) ≡ true }
    ensures reply { SaysData A.says result (end_of chain.old.image end).head }
    ensures image { chain.new.image ≡ without_first chain.old.image end 1 }
    ensures ok { IsOk result }
{
    let dat = take_data(chain, end);
    A::of(chain.alloc(), Reply::Read { dat })
}

/// Returns the bytes that a read has found, takes their messages away from the head, and puts the rest back.
fn copy_out<M: ModuleOf, A: ReplyForm>(
    chain: &mut Chain<M>,
    end: End,
    found: ReadResult,
) -> Result<A, NoMem>
    ensures reply { IfOk result (λ reply. A.says reply ≡ Replies.Read found.bytes) }
    ensures image { OnOk result (chain.new.image ≡ with_rest chain.old.image end found.gone found.rest) }
    ensures err { OnErr result (chain.new.image ≡ chain.old.image) }
{
    let ReadResult { bytes, gone, rest } = found;
    let reply = A::of(chain.alloc(), Reply::Read { dat: bytes })?;
    match replace_front(chain, end, gone, rest) {
        Ok(()) => Ok(reply),
        Err(wanting) => {
            drop(reply);
            Err(wanting)
        }
    }
}

/// Takes at most `max` bytes of the messages at a head, by the modes that I_SRDOPT sets (read(2)). A
/// read of no bytes looks at nothing; else a first message without bytes is taken and gives none.
///
/// Fails only when memory runs out, which is not met where there is nothing to read. Then nothing is
/// changed.
pub fn read<M: ModuleOf, A: ReplyForm>(chain: &mut Chain<M>, end: End, max: u16) -> Result<A, NoMem>
    ensures reply { IfOk result (λ it. A.says it ≡ (read_effect chain.old.image end max).reply) }
    ensures image { OnOk result (chain.new.image ≡ (read_effect chain.old.image end max).image) }
    ensures err { OnErr result (chain.new.image ≡ chain.old.image) }
    ensures nothing { max ≡ 0 → IsOk result }
    ensures empty { (end_of chain.old.image end).head ≡ [] → IsOk result }
{
    let alloc = chain.alloc();
    if max == 0 || chain.head(end).is_empty() {
        return Ok(A::new(nothing_read(), nothing_read()));
    }
    if A::is_alone() && is_single_data(chain.head(end), max) {
        return move_single(chain, end);
    }
    let mode = chain.state(end).mode;
    let prot = chain.state(end).prot;
    let found = found_in(alloc, chain.head(end), mode, prot, max)?;
    copy_out(chain, end, found)
}
