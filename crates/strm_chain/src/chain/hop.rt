//! Messages on their way, one hop at a time.
ghost use Rattle.std.specs.VecDeque.{deque_len, deque_capacity};
ghost use Rattle.std.specs.Prelude.{true, ◌≡◌, [], ◌∷◌, ◌++◌, ◌<◌, ◌≤◌, ◌+◌, ◌-◌, OnOk, OnErr, map, length};
ghost use Rattle.strm_msg.specs.declared.words.Side.TheVariants as Side;
ghost use Rattle.strm_module.specs.Driver.{partner};
ghost use Rattle.strm_chain.specs.Deliver.{put_at, up, down};
ghost use Rattle.strm_chain_ends.specs.Same.{SameModules};
ghost use Rattle.strm_module.specs.Calm.{is_calm, IsCalm};
ghost use Rattle.strm_chain.specs.Count.{options_in, options_carried, Grows, are_calm_hops};
ghost use Rattle.strm_chain.specs.Hop.{carry, deliver_all, load, up_hop, down_hop, hop_of, next_module};

use super::Chain;
use std::alloc::Global;
use std::collections::VecDeque;
use std::mem;
use strm_chain_end::DriverSends;
use strm_module::{MOST_MODULES, ModuleOf, Outs};
use strm_msg::{BoxedMessage, End, Message, NoMem, Side as Sides};

/// A message that is on its way, up to the head or down to the driver, with a number of modules
/// still ahead.
#[derive(Drop)]
pub(super) struct Hop {
    /// It comes of a message that a head sent down.
    pub(super) head_sent: bool,
    /// `Rd` on its way up, `Wr` on its way down.
    pub(super) side: Sides,
    pub(super) end: End,
    /// The number of modules that it still has to pass.
    pub(super) ahead: usize,
    pub(super) m: BoxedMessage,
}

impl Hop {
    /// A message on its way up.
    pub(super) fn up(head_sent: bool, end: End, ahead: usize, m: BoxedMessage) -> Hop
        ensures { result ≡ up_hop head_sent end ahead m }
    {
        Hop {
            head_sent,
            side: Sides::Rd,
            end,
            ahead,
            m,
        }
    }

    /// A message on its way down.
    pub(super) fn down(head_sent: bool, end: End, ahead: usize, m: BoxedMessage) -> Hop
        ensures { result ≡ down_hop head_sent end ahead m }
    {
        Hop {
            head_sent,
            side: Sides::Wr,
            end,
            ahead,
            m,
        }
    }

    /// The hop of a message that module `i` sends for one that came on a side, with this many modules below
    /// it.
    fn of_out(
        head_sent: bool,
        side: Sides,
        end: End,
        i: usize,
        below: usize,
        out: (Sides, BoxedMessage),
    ) -> Hop
        ensures { result ≡ hop_of head_sent side end i below out }
    {
        let (out, m) = out;
        match (side, out) {
            (Sides::Wr, Sides::Wr) => Hop::down(head_sent, end, below, m),
            _ => Hop::up(head_sent, end, i.saturating_sub(1), m),
        }
    }
}

/// Puts the messages that module `i` sends in front of the list of messages on their way.
#[inline(always)]
pub(super) fn push_outs(
    hops: &mut VecDeque<Hop>,
    head_sent: bool,
    side: Sides,
    end: End,
    i: usize,
    below: usize,
    outs: Outs,
)
    requires { deque_len hops.old + 2 ≤ deque_capacity hops.old }
    ensures items { hops.new.items ≡ map (hop_of head_sent side end i below) outs.items ++ hops.old.items }
    ensures few { length outs.items ≤ 2 }
{
    let (first, second) = outs.into_parts();
    if let Some(out) = second {
        hops.push_front_reserved(Hop::of_out(head_sent, side, end, i, below, out));
    }
    if let Some(out) = first {
        hops.push_front_reserved(Hop::of_out(head_sent, side, end, i, below, out));
    }
}

/// Puts options for a head in front of the list of messages on their way, and behind them the ack of the
/// ioctl that asked for them. Fails only when memory runs out: then the list is as before.
fn push_options(
    alloc: Global,
    hops: &mut VecDeque<Hop>,
    head_sent: bool,
    end: End,
    ahead: usize,
    ack: Message,
    options: Message,
) -> Result<(), NoMem>
    requires { deque_len hops.old + 2 ≤ deque_capacity hops.old }
    ensures { OnOk result (hops.new.items ≡ up_hop head_sent end ahead options ∷ (up_hop head_sent end ahead ack ∷ hops.old.items)) }
{
    let ack = BoxedMessage::new(alloc, ack)?;
    let options = BoxedMessage::new(alloc, options)?;
    hops.push_front_reserved(Hop::up(head_sent, end, ahead, ack));
    hops.push_front_reserved(Hop::up(head_sent, end, ahead, options));
    Ok(())
}

impl<M: ModuleOf> Chain<M> {
    /// Takes the room for messages on their way out of the chain, with no message in it. Takes no
    /// memory.
    pub(super) fn take_hops(&mut self) -> VecDeque<Hop>
        ensures empty { result.items ≡ [] }
        ensures same { self.new ≡ self.old }
    {
        let none = VecDeque::new(self.alloc());
        mem::replace(&mut self.hops, none)
    }

    /// Puts the room for messages on their way back into the chain.
    pub(super) fn put_back_hops(&mut self, hops: VecDeque<Hop>)
        requires { hops.items ≡ [] }
        ensures { self.new ≡ self.old }
    {
        self.hops = hops;
    }

    /// Does the hop of a message to a head.
    fn to_head(
        &mut self,
        hops: &mut VecDeque<Hop>,
        head_sent: bool,
        end: End,
        m: BoxedMessage,
    ) -> Result<(), NoMem>
        requires { deque_len hops.old < deque_capacity hops.old }
        ensures image { OnOk result (deliver_all M.Kind.means self.new.image hops.new.items ≡ deliver_all M.Kind.means (up M.Kind.means head_sent end 0 self.old.image m) hops.old.items) }
        ensures falls { OnOk result (load hops.new.items < load (up_hop head_sent end 0 m ∷ hops.old.items)) }
        ensures err { OnErr result (self.new.image ≡ self.old.image) }
        ensures same { SameModules self.old.image self.new.image }
        ensures given { self.new.run.given ≡ self.old.run.given }
        ensures grows { OnOk result (IsCalm M.Kind.means → is_calm m.kind ≡ true → are_calm_hops hops.old.items ≡ true → Grows self.old (options_in self.old.image m + options_carried self.old.image hops.old.items) self.new (options_carried self.old.image hops.new.items) × (are_calm_hops hops.new.items ≡ true)) }
    {
        let sends = self.put_at_head(end, m)?;
        if head_sent {
            return Ok(());
        }
        match sends {
            Some(m) => hops.push_front_reserved(Hop::down(true, end, self.count(end), m)),
            None => {}
        }
        Ok(())
    }

    /// Does the hop of a message to the driver.
    fn to_driver(
        &mut self,
        hops: &mut VecDeque<Hop>,
        head_sent: bool,
        end: End,
        m: BoxedMessage,
    ) -> Result<(), NoMem>
        requires { deque_len hops.old + 2 ≤ deque_capacity hops.old }
        ensures image { OnOk result (deliver_all M.Kind.means self.new.image hops.new.items ≡ deliver_all M.Kind.means (down M.Kind.means head_sent end 0 self.old.image m) hops.old.items) }
        ensures falls { OnOk result (load hops.new.items < load (down_hop head_sent end 0 m ∷ hops.old.items)) }
        ensures err { OnErr result (self.new.image ≡ self.old.image) }
        ensures same { SameModules self.old.image self.new.image }
        ensures given { self.new.run.given ≡ self.old.run.given }
        ensures grows { OnOk result (IsCalm M.Kind.means → is_calm m.kind ≡ true → are_calm_hops hops.old.items ≡ true → Grows self.old (options_in self.old.image m + options_carried self.old.image hops.old.items) self.new (options_carried self.old.image hops.new.items) × (are_calm_hops hops.new.items ≡ true)) }
    {
        let partner = self.driver().partner_of(end);
        let own = self.count(end);
        let across = self.count(partner);
        match self.put_at_driver(end, m)? {
            DriverSends::Nothing => return Ok(()),
            DriverSends::Reply(m) => {
                hops.push_front_reserved(Hop::up(head_sent, end, own, m));
                return Ok(());
            }
            DriverSends::Across(m) => {
                hops.push_front_reserved(Hop::up(head_sent, partner, across, m));
                return Ok(());
            }
            DriverSends::Options {
                mode,
                prot,
                marks,
                id,
            } => {
                let ack = Message::of_ack(id, 0, None);
                let options = Message::of_setopts(mode, prot, marks);
                push_options(self.ends.alloc(), hops, head_sent, end, own, ack, options)
            }
        }
    }

    /// The number of the module that is next where `ahead` modules are still ahead.
    fn next_module(&self, side: Sides, end: End, ahead: usize) -> usize
        requires { 0 < ahead }
        ensures value { result ≡ next_module self.now.image side end ahead }
        ensures few { side ≡ Side.Wr → result ≤ MOST_MODULES }
    {
        match side {
            Sides::Rd => ahead,
            Sides::Wr => self.count(end).saturating_sub(ahead - 1),
        }
    }

    /// Does the hop of a message to a module.
    fn to_module(&mut self, hops: &mut VecDeque<Hop>, hop: Hop) -> Result<(), NoMem>
        requires ahead { 0 < hop.ahead }
        requires room { deque_len hops.old + 2 ≤ deque_capacity hops.old }
        ensures image { OnOk result (deliver_all M.Kind.means self.new.image hops.new.items ≡ deliver_all M.Kind.means (carry M.Kind.means self.old.image hop) hops.old.items) }
        ensures falls { OnOk result (load hops.new.items < load (hop ∷ hops.old.items)) }
        ensures err { OnErr result (self.new.image ≡ self.old.image) }
        ensures same { SameModules self.old.image self.new.image }
        ensures given { self.new.run.given ≡ self.old.run.given }
        ensures grows { OnOk result (IsCalm M.Kind.means → is_calm hop.m.kind ≡ true → are_calm_hops hops.old.items ≡ true → Grows self.old (options_in self.old.image hop.m + options_carried self.old.image hops.old.items) self.new (options_carried self.old.image hops.new.items) × (are_calm_hops hops.new.items ≡ true)) }
    {
        let Hop {
            head_sent,
            side,
            end,
            ahead,
            m,
        } = hop;
        let i = self.next_module(side, end, ahead);
        let outs = self.put_at(end, i, side, m)?;
        push_outs(hops, head_sent, side, end, i, ahead - 1, outs);
        Ok(())
    }

    /// Makes the next hop of a message that is on its way. The messages that come of it are in front of those
    /// that were on their way already. Fails only when memory runs out: then nothing is changed.
    pub(super) fn hop(&mut self, hops: &mut VecDeque<Hop>, hop: Hop) -> Result<(), NoMem>
        ensures image { OnOk result (deliver_all M.Kind.means self.new.image hops.new.items ≡ deliver_all M.Kind.means (carry M.Kind.means self.old.image hop) hops.old.items) }
        ensures falls { OnOk result (load hops.new.items < load (hop ∷ hops.old.items)) }
        ensures err { OnErr result (self.new.image ≡ self.old.image) }
        ensures same { SameModules self.old.image self.new.image }
        ensures given { self.new.run.given ≡ self.old.run.given }
        ensures grows { OnOk result (IsCalm M.Kind.means → is_calm hop.m.kind ≡ true → are_calm_hops hops.old.items ≡ true → Grows self.old (options_in self.old.image hop.m + options_carried self.old.image hops.old.items) self.new (options_carried self.old.image hops.new.items) × (are_calm_hops hops.new.items ≡ true)) }
    {
        hops.reserve(2)?;
        if hop.ahead > 0 {
            return self.to_module(hops, hop);
        }
        let Hop {
            head_sent,
            side,
            end,
            ahead: _,
            m,
        } = hop;
        match side {
            Sides::Rd => self.to_head(hops, head_sent, end, m),
            Sides::Wr => self.to_driver(hops, head_sent, end, m),
        }
    }

    /// Carries the messages that are on their way to their end, and those that come of them, each before the
    /// next.
    pub(super) fn deliver_all(&mut self, hops: &mut VecDeque<Hop>) -> Result<(), NoMem>
        ensures ok { OnOk result (self.new.image ≡ deliver_all M.Kind.means self.old.image hops.old.items) }
        ensures empty { OnOk result (hops.new.items ≡ []) }
        ensures same { SameModules self.old.image self.new.image }
        ensures given { self.new.run.given ≡ self.old.run.given }
        ensures grows { OnOk result (IsCalm M.Kind.means → are_calm_hops hops.old.items ≡ true → Grows self.old (options_carried self.old.image hops.old.items) self.new 0) }
    {
        while let Some(hop) = hops.pop_front() {
            self.hop(hops, hop)?;
        }
        Ok(())
    }
}
