//! A message that comes in from a line.
ghost use Rattle.std.specs.Prelude.{◌≡◌, true, false};
ghost use Rattle.strm_msg.specs.Kind.{is_high, is_from_line};
ghost use Rattle.strm_msg.specs.declared.words.End.TheVariants as Ends;
ghost use Rattle.strm_head.specs.Step.{can_arrive};
ghost use Rattle.strm_head.specs.Arrive.{Arrives, HasGiven, IsTakenIn, StaysOut};
ghost use Rattle.strm_head.specs.Inside.{IsWholeStream};

use crate::outcome::Arrived;
use strm_chain::{Chain, ChainFault, Spot, deliver};
use strm_module::ModuleOf;
use strm_msg::{BoxedMessage, End, Message};

/// Whether a message can come in.
pub(crate) fn can_arrive<M: ModuleOf>(chain: &Chain<M>, m: &Message) -> bool
    ensures { result ≡ can_arrive chain.now.image Ends.A m.now }
{
    if !chain.driver().is_line() || !m.from_line() {
        return false;
    }
    if !chain.is_open(End::A) || chain.is_broken() {
        return false;
    }
    m.is_high() || !chain.line_full(m.band)
}

/// Sends a high message up at once. Where memory runs out before a change it comes back.
fn send_up<M: ModuleOf>(chain: &mut Chain<M>, m: Message) -> Result<(), Arrived>
    requires can { can_arrive chain.old.image Ends.A m ≡ true }
    requires high { is_high m.kind ≡ true }
    ensures image { IsTakenIn M.Kind.means chain.old m result chain.new }
    ensures err { StaysOut M.Kind.means chain.old m result chain.new }
{
    let i = chain.count(End::A) as u8;
    let copy = match m.copy() {
        Ok(copy) => copy,
        Err(_) => return Err(Arrived::NoMem(m)),
    };
    match deliver(chain, Spot::Up { end: End::A, i }, copy) {
        Ok(()) => {
            drop(m);
            Ok(())
        }
        Err(ChainFault::NoMem) => Err(Arrived::NoMem(m)),
        Err(ChainFault::Broken) => {
            drop(m);
            Err(Arrived::Broke)
        }
    }
}

/// Puts an ordinary message into the list of messages that came in. It comes back only when memory runs out.
fn wait_below<M: ModuleOf>(chain: &mut Chain<M>, m: Message) -> Result<(), Arrived>
    requires can { can_arrive chain.old.image Ends.A m ≡ true }
    requires ordinary { is_high m.kind ≡ false }
    ensures image { IsTakenIn M.Kind.means chain.old m result chain.new }
    ensures err { StaysOut M.Kind.means chain.old m result chain.new }
{
    let m = match BoxedMessage::try_new(chain.alloc(), m) {
        Ok(m) => m,
        Err(m) => return Err(Arrived::NoMem(m)),
    };
    match chain.line_put(m) {
        Ok(()) => Ok(()),
        Err(m) => Err(Arrived::NoMem(m.into_message())),
    }
}

/// Lets a message come in that can: an ordinary one waits in the list of messages that came in, a high one
/// goes up.
fn take_in<M: ModuleOf>(chain: &mut Chain<M>, m: Message) -> Result<(), Arrived>
    requires can { can_arrive chain.old.image Ends.A m ≡ true }
    ensures image { IsTakenIn M.Kind.means chain.old m result chain.new }
    ensures err { StaysOut M.Kind.means chain.old m result chain.new }
{
    if m.is_high() {
        return send_up(chain, m);
    }
    wait_below(chain, m)
}

/// Lets a message come in from a line, and moves the places that must move.
pub(crate) fn arrive<M: ModuleOf>(chain: &mut Chain<M>, m: Message) -> Arrived
    requires line { is_from_line m.kind ≡ true }
    requires kept { IsWholeStream M.Kind.means chain.old.image }
    ensures arrives { Arrives M.Kind.means chain.old.image m result chain.new.image }
    ensures given { HasGiven result chain.new.run.given }
{
    if !can_arrive(chain, &m) {
        return Arrived::Full(m);
    }
    match take_in(chain, m) {
        Ok(()) => {}
        Err(arrived) => return arrived,
    }
    match chain.settle() {
        Ok(settled) => Arrived::Taken {
            moves: settled.moves,
            looks: settled.looks,
        },
        Err(_) => {
            chain.break_off();
            Arrived::Broke
        }
    }
}
