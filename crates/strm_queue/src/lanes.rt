//! The lanes of a queue, greatest rank first.
ghost use Rattle.std.specs.Prelude.{◌≡◌, ◌+◌, ◌*◌, ◌^◌, ◌<◌, ◌≤◌, ◌↔◌, ◌&&◌, [], not, true, take, length, min, sum_by, slice_get, option_copied, IsTrue, IsOk, IfOk, OnOk, OnErr, IfErr, MatchOption};
ghost use Rattle.strm_msg.specs.Message.{rank_of, weight_of};
ghost use Rattle.strm_queue.specs.Queue.{put_in, put_back_in, flush_of, TakesFirst};
ghost use Rattle.strm_queue.specs.Lanes.{is_of_rank, is_laned, messages_of, total_len, messages_of_rank, flush_rank_of, place_of, spare_of, IsPlace, IsEmptyBefore, IsFirstFilled, StaysEmpty, KeepsSpare, SpendsOneSpare};

use crate::lane::Lane;
use strm_msg::{BoxedMessage, Message, NoMem};

/// The rank of the high messages.
pub(crate) const HIGH: u16 = 256;

/// The rank of the lane in which a message is.
pub(crate) fn rank_of(m: &BoxedMessage) -> u16
    ensures rank { result ≡ rank_of m.now }
    ensures stands { is_of_rank result m.now ≡ true }
    ensures most { result ≤ 256 }
{
    if m.is_high() { HIGH } else { u16::from(m.band) }
}

/// The number of lanes before the place of a rank.
fn place_of(lanes: &[Lane], rank: u16) -> usize
    requires { is_laned lanes.now ≡ true }
    ensures value { result ≡ place_of rank lanes.now }
    ensures within { result ≤ length lanes.now }
{
    lanes.partition_point(|lane| lane.rank() > rank)
}

/// Whether the lane of a rank is there.
fn is_lane_at(lanes: &[Lane], at: usize, rank: u16) -> bool
    ensures { IsTrue result ↔ IsPlace rank at lanes.now }
{
    at < lanes.len() && lanes[at].rank() == rank
}

/// The place of the lane of a rank, if there is one.
pub(crate) fn find(lanes: &[Lane], rank: u16) -> Option<usize>
    requires { is_laned lanes.now ≡ true }
    ensures { MatchOption result (messages_of_rank rank lanes.now ≡ []) (λ at. IsPlace rank at lanes.now) }
{
    let at = place_of(lanes, rank);
    if is_lane_at(lanes, at, rank) {
        Some(at)
    } else {
        None
    }
}

/// The place of the lane of a rank, which is made where there is none.
///
/// Fails only when memory runs out, and not where the lane is there.
#[inline(always)]
pub(crate) fn find_or_make(lanes: &mut Vec<Lane>, rank: u16) -> Result<usize, NoMem>
    requires { is_laned lanes.old.items ≡ true }
    ensures laned { is_laned lanes.new.items ≡ true }
    ensures messages { messages_of lanes.new.items ≡ messages_of lanes.old.items }
    ensures room { KeepsSpare lanes.old.items lanes.new.items }
    ensures place { IfOk result (λ at. IsPlace rank at lanes.new.items) }
    ensures before { IfOk result (λ at. take at lanes.new.items ≡ take at lanes.old.items) }
    ensures empty { StaysEmpty lanes.old.items lanes.new.items }
    ensures enough { 0 < spare_of rank lanes.old.items → IsOk result }
{
    let at = place_of(lanes.as_slice(), rank);
    if is_lane_at(lanes.as_slice(), at, rank) {
        return Ok(at);
    }
    let alloc = *lanes.allocator();
    lanes.insert(at, Lane::new(alloc, rank))?;
    Ok(at)
}

/// Makes room for one more message of a rank.
///
/// Fails only when memory runs out, and not where the room is there.
pub(crate) fn reserve_at(lanes: &mut Vec<Lane>, rank: u16) -> Result<(), NoMem>
    requires { is_laned lanes.old.items ≡ true }
    ensures laned { is_laned lanes.new.items ≡ true }
    ensures messages { messages_of lanes.new.items ≡ messages_of lanes.old.items }
    ensures kept { KeepsSpare lanes.old.items lanes.new.items }
    ensures empty { StaysEmpty lanes.old.items lanes.new.items }
    ensures room { OnOk result (0 < spare_of rank lanes.new.items) }
    ensures enough { 0 < spare_of rank lanes.old.items → IsOk result }
{
    let at = find_or_make(lanes, rank)?;
    let lane = &mut lanes[at];
    lane.reserve()
}

/// Puts a message behind those of its rank, and returns the place of its lane. The message comes back only
/// when memory runs out.
pub(crate) fn push_last_of_rank(
    lanes: &mut Vec<Lane>,
    m: BoxedMessage,
) -> Result<usize, BoxedMessage>
    requires { is_laned lanes.old.items ≡ true }
    ensures laned { is_laned lanes.new.items ≡ true }
    ensures ok { OnOk result (messages_of lanes.new.items ≡ put_in (messages_of lanes.old.items) m) }
    ensures err { OnErr result (messages_of lanes.new.items ≡ messages_of lanes.old.items) }
    ensures back { IfErr result (λ same. same ≡ m) }
    ensures room { 0 < spare_of (min (rank_of m) 256) lanes.old.items → IsOk result }
    ensures spent { OnOk result (SpendsOneSpare lanes.old.items lanes.new.items) }
    ensures unspent { OnErr result (KeepsSpare lanes.old.items lanes.new.items) }
    ensures before { IfOk result (λ at. take at lanes.new.items ≡ take at lanes.old.items) }
    ensures empty { OnErr result (StaysEmpty lanes.old.items lanes.new.items) }
{
    let Ok(at) = find_or_make(lanes, rank_of(&m)) else {
        return Err(m);
    };
    let lane = &mut lanes[at];
    lane.push_back(m)?;
    Ok(at)
}

/// Puts a message before those of its rank, and returns the place of its lane. The message comes back only
/// when memory runs out.
pub(crate) fn push_first_of_rank(
    lanes: &mut Vec<Lane>,
    m: BoxedMessage,
) -> Result<usize, BoxedMessage>
    requires { is_laned lanes.old.items ≡ true }
    ensures laned { is_laned lanes.new.items ≡ true }
    ensures ok { OnOk result (messages_of lanes.new.items ≡ put_back_in (messages_of lanes.old.items) m) }
    ensures err { OnErr result (messages_of lanes.new.items ≡ messages_of lanes.old.items) }
    ensures back { IfErr result (λ same. same ≡ m) }
    ensures room { 0 < spare_of (min (rank_of m) 256) lanes.old.items → IsOk result }
    ensures spent { OnOk result (SpendsOneSpare lanes.old.items lanes.new.items) }
    ensures unspent { OnErr result (KeepsSpare lanes.old.items lanes.new.items) }
    ensures before { IfOk result (λ at. take at lanes.new.items ≡ take at lanes.old.items) }
    ensures empty { OnErr result (StaysEmpty lanes.old.items lanes.new.items) }
{
    let Ok(at) = find_or_make(lanes, rank_of(&m)) else {
        return Err(m);
    };
    let lane = &mut lanes[at];
    lane.push_front(m)?;
    Ok(at)
}

/// The place of the first lane that has a message, where none before `front` has one.
pub(crate) fn first_filled(lanes: &[Lane], front: usize) -> Option<usize>
    requires { IsEmptyBefore front lanes.now }
    ensures { MatchOption result (messages_of lanes.now ≡ []) (λ at. IsFirstFilled at lanes.now) }
{
    for at in front..lanes.len() {
        if !lanes[at].is_empty() {
            return Some(at);
        }
    }
    None
}

/// The first message, where no lane before `front` has one.
pub(crate) fn first(lanes: &[Lane], front: usize) -> Option<&Message>
    requires { IsEmptyBefore front lanes.now }
    ensures { option_copied result ≡ slice_get (messages_of lanes.now) 0 }
{
    let at = first_filled(lanes, front)?;
    lanes[at].at(0)
}

/// Takes the first message, where no lane before `front` has one, and moves `front` to its lane. Its
/// place stays with the lane.
pub(crate) fn take_first(lanes: &mut Vec<Lane>, front: &mut usize) -> Option<BoxedMessage>
    requires laned { is_laned lanes.old.items ≡ true }
    requires empty { IsEmptyBefore front.old lanes.old.items }
    ensures laned { is_laned lanes.new.items ≡ true }
    ensures empty { IsEmptyBefore front.new lanes.new.items }
    ensures first { TakesFirst result (messages_of lanes.old.items) (messages_of lanes.new.items) }
    ensures room { KeepsSpare lanes.old.items lanes.new.items }
{
    let at = first_filled(lanes.as_slice(), *front)?;
    *front = at;
    let lane = &mut lanes[at];
    lane.pop()
}

/// The message at a place, counted from 0 for the first.
pub(crate) fn message_at(lanes: &[Lane], i: usize) -> Option<&Message>
    ensures { option_copied result ≡ slice_get (messages_of lanes.now) i }
{
    let mut left = i;
    for lane in lanes {
        if left < lane.len() {
            return lane.at(left);
        }
        left -= lane.len();
    }
    None
}

/// The sum of the weights of the messages of a rank.
pub(crate) fn weight_at(lanes: &[Lane], rank: u16) -> u128
    requires { is_laned lanes.now ≡ true }
    ensures value { result ≡ sum_by weight_of (messages_of_rank rank lanes.now) }
    ensures most { result ≤ length (messages_of_rank rank lanes.now) * 2 ^ 65 }
{
    match find(lanes, rank) {
        Some(at) => lanes[at].weight(),
        None => 0,
    }
}

/// Removes the data and protocol messages of a rank, and returns their number.
pub(crate) fn flush_rank(lanes: &mut Vec<Lane>, rank: u16) -> usize
    requires { is_laned lanes.old.items ≡ true }
    ensures laned { is_laned lanes.new.items ≡ true }
    ensures messages { messages_of lanes.new.items ≡ flush_rank_of rank (messages_of lanes.old.items) }
    ensures empty { StaysEmpty lanes.old.items lanes.new.items }
    ensures count { result + total_len lanes.new.items ≡ total_len lanes.old.items }
    ensures room { KeepsSpare lanes.old.items lanes.new.items }
{
    match find(lanes.as_slice(), rank) {
        Some(at) => lanes[at].flush(),
        None => 0,
    }
}

/// Removes the data and protocol messages of all ranks, and returns their number.
pub(crate) fn flush_all(lanes: &mut Vec<Lane>) -> usize
    requires laned { is_laned lanes.old.items ≡ true }
    requires most { total_len lanes.old.items < 2 ^ 63 }
    ensures laned { is_laned lanes.new.items ≡ true }
    ensures messages { messages_of lanes.new.items ≡ flush_of (messages_of lanes.old.items) }
    ensures empty { StaysEmpty lanes.old.items lanes.new.items }
    ensures count { result + total_len lanes.new.items ≡ total_len lanes.old.items }
    ensures room { KeepsSpare lanes.old.items lanes.new.items }
{
    let mut removed = 0;
    for i in 0..lanes.len() {
        removed += lanes[i].flush();
    }
    removed
}
