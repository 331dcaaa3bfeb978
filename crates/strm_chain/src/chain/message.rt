//! The effect of a message on a head, on the driver and on a module, the message that service takes, and the
//! places that each enables.
ghost use Rattle.std.specs.Prelude.{◌&&◌, ◌≡◌, ◌∷◌, ◌<◌, [], None, true, OnOk, OnErr, IfOk, IfSome, IfNone};
ghost use Rattle.strm_chain_end.specs.End.{pair_at};
ghost use Rattle.strm_chain_end.specs.Modules.{HoldsCalm};
ghost use Rattle.strm_chain_end.specs.Head.{put_at_head};
ghost use Rattle.strm_chain_ends.specs.Image.{end_of, with_end, with_drv, put_at_driver, driven};
ghost use Rattle.strm_module.specs.Driver.{is_wire};
ghost use Rattle.strm_chain_ends.specs.Held.{is_flush, sets_options};
ghost use Rattle.strm_chain_ends.specs.Same.{SameModules};
ghost use Rattle.strm_chain_ends.specs.declared.place.NextQueue.TheVariants.{Of};
ghost use Rattle.strm_chain.specs.declared.number.TheConstants.{QUEUES};
ghost use Rattle.strm_chain.specs.Number.{queue_number};
ghost use Rattle.strm_chain_ends.specs.Held.{module_place};
ghost use Rattle.strm_module.specs.Calm.{is_calm, IsCalm};
ghost use Rattle.strm_chain_ends.specs.declared.place.Place.TheVariants as Places;
ghost use Rattle.strm_chain.specs.Enabled.{is_enabled};
ghost use Rattle.strm_chain.specs.Count.{options_in, options_out, Grows, HasMoved};
ghost use Rattle.strm_chain_ends.specs.Count.{answers_options, options_driven};
ghost use Rattle.strm_chain.specs.Deliver.{put_at};
ghost use Rattle.strm_chain.specs.Service.{serve_at};

use super::Chain;
use strm_chain_end::DriverSends;
use strm_chain_ends::{NextQueue, Place};
use strm_module::{Driver, ModuleOf, Outs};
use strm_msg::{BoxedMessage, End, MsgKind, NoMem, Side};

/// Whether a message flushes queues.
fn is_flush(kind: MsgKind) -> bool
    ensures { result ≡ is_flush kind }
{
    match kind {
        MsgKind::MFlush { .. } => true,
        _ => false,
    }
}

/// Whether a message may change two lists of a driver: a flush that comes to a wire.
fn flushes_both(driver: Driver, kind: MsgKind) -> bool
    ensures { result ≡ (is_wire driver && is_flush kind) }
{
    driver.is_wire() && is_flush(kind)
}

/// Whether a message sets options of a head.
fn sets_options(kind: MsgKind) -> bool
    ensures { result ≡ sets_options kind }
{
    match kind {
        MsgKind::MSetopts { .. } => true,
        _ => false,
    }
}

impl<M: ModuleOf> Chain<M> {
    /// The queue of a side of module `i`, if there is such a module.
    fn module_queue(&self, end: End, i: usize, side: Side) -> Option<NextQueue>
        ensures some { IfSome result (λ queue. queue ≡ Of (module_place side end i)) }
        ensures few { IfSome result (λ queue. queue_number queue < QUEUES) }
        ensures small { IfSome result (λ _. i < 256) }
        ensures none { IfNone result (pair_at (end_of self.now.image end).modules i ≡ None) }
        ensures ordinary { HoldsCalm (end_of self.now.image end) }
    {
        let count = self.ends.count(end);
        if i == 0 || i > count {
            return None;
        }
        let i = i as u8;
        let place = match side {
            Side::Rd => Place::Rd { end, i },
            Side::Wr => Place::Wr { end, i },
        };
        Some(NextQueue::Of { place })
    }

    /// Lets a head act on a message, and returns the message that it sends down. Options may change its
    /// marks, and then the place that waits for it is looked at again.
    pub(super) fn put_at_head(
        &mut self,
        end: End,
        m: BoxedMessage,
    ) -> Result<Option<BoxedMessage>, NoMem>
        ensures state { OnOk result (self.new.image ≡ with_end self.old.image end (put_at_head (end_of self.old.image end) m).state) }
        ensures sends { IfOk result (λ sends. sends ≡ (put_at_head (end_of self.old.image end) m).sends) }
        ensures err { OnErr result (self.new.image ≡ self.old.image) }
        ensures same { SameModules self.old.image self.new.image }
        ensures given { self.new.run.given ≡ self.old.run.given }
        ensures grows { OnOk result (is_calm m.kind ≡ true → Grows self.old (options_in self.old.image m) self.new 0) }
    {
        let queue = NextQueue::Head { end };
        let before = self.ends.len(queue);
        let sets = sets_options(m.kind);
        let answer = self.ends.end_mut(end).put_at_head(m);
        if sets {
            self.enabling.back_enable(&self.ends, queue);
            return answer;
        }
        self.enabling.enable_by_change(&self.ends, queue, before);
        answer
    }

    /// Lets the driver act on a message from above, and returns what it sends up. A flush may change both
    /// lists of a wire, and then each place is looked at again.
    pub(super) fn put_at_driver(&mut self, end: End, m: BoxedMessage) -> Result<DriverSends, NoMem>
        ensures state { OnOk result (self.new.image ≡ driven self.old.image end m) }
        ensures sends { IfOk result (λ sends. sends ≡ (put_at_driver self.old.image.driver end (end_of self.old.image end) m).sends) }
        ensures err { OnErr result (self.new.image ≡ self.old.image) }
        ensures same { SameModules self.old.image self.new.image }
        ensures given { self.new.run.given ≡ self.old.run.given }
        ensures grows { IfOk result (λ sends. is_calm m.kind ≡ true → Grows self.old (options_in self.old.image m) self.new (options_driven (answers_options self.old.image.driver) sends)) }
    {
        let queue = NextQueue::Of {
            place: Place::Drv { end },
        };
        let before = self.ends.len(queue);
        let flushes = flushes_both(self.ends.driver(), m.kind);
        let answer = self.ends.put_at_driver(end, m);
        if flushes {
            self.enabling.enable_all(&self.ends);
            return answer;
        }
        self.enabling.enable_by_change(&self.ends, queue, before);
        answer
    }

    /// Hands a message to module `i`. A flush may change both its queues, and then each place is
    /// looked at again.
    pub(super) fn put_at(
        &mut self,
        end: End,
        i: usize,
        side: Side,
        m: BoxedMessage,
    ) -> Result<Outs, NoMem>
        ensures image { OnOk result (self.new.image ≡ (put_at M.Kind.means self.old.image end i side m).image) }
        ensures outs { IfOk result (λ outs. outs.items ≡ (put_at M.Kind.means self.old.image end i side m).outs) }
        ensures err { OnErr result (self.new.image ≡ self.old.image) }
        ensures same { SameModules self.old.image self.new.image }
        ensures given { self.new.run.given ≡ self.old.run.given }
        ensures grows { IfOk result (λ outs. IsCalm M.Kind.means → is_calm m.kind ≡ true → Grows self.old (options_in self.old.image m) self.new (options_out self.old.image outs.items)) }
    {
        let Some(queue) = self.module_queue(end, i, side) else {
            return Ok(Outs::new());
        };
        let before = self.ends.len(queue);
        let flushes = is_flush(m.kind);
        let module = i as u8;
        let turns = self.ends.turns(end, module);
        let alloc = self.ends.alloc();
        let answer = self.ends.end_mut(end).put_at(alloc, i, side, m);
        if flushes {
            self.enabling.enable_all(&self.ends);
            return answer;
        }
        self.enabling
            .enable_by_turns(&self.ends, end, module, turns);
        self.enabling.enable_by_change(&self.ends, queue, before);
        answer
    }

    /// Serves the first message of a queue of module `i`.
    pub(super) fn serve_at(&mut self, end: End, i: usize, side: Side) -> Result<Outs, NoMem>
        ensures image { OnOk result (self.new.image ≡ (serve_at M.Kind.means self.old.image end i side).image) }
        ensures outs { IfOk result (λ outs. outs.items ≡ (serve_at M.Kind.means self.old.image end i side).outs) }
        ensures same { SameModules self.old.image self.new.image }
        ensures given { self.new.run.given ≡ self.old.run.given }
        ensures moves { IfOk result (λ outs. IsCalm M.Kind.means → is_enabled self.old.run (module_place side end i) ≡ true → HasMoved self.old self.new (options_out self.old.image outs.items)) }
    {
        let Some(queue) = self.module_queue(end, i, side) else {
            return Ok(Outs::new());
        };
        let before = self.ends.len(queue);
        let module = i as u8;
        let turns = self.ends.turns(end, module);
        let alloc = self.ends.alloc();
        match self.ends.end_mut(end).serve_at(alloc, i, side) {
            Ok(outs) => {
                self.enabling
                    .enable_by_turns(&self.ends, end, module, turns);
                self.enabling.enable_by_change(&self.ends, queue, before);
                Ok(outs)
            }
            Err(_) => {
                self.enabling.enable_all(&self.ends);
                Err(NoMem)
            }
        }
    }

    /// Takes the first message of an end's driver list.
    #[inline(always)]
    pub(super) fn take_driver(&mut self, end: End) -> Option<BoxedMessage>
        ensures some { IfSome result (λ m. ((end_of self.old.image end).drv ≡ m ∷ (end_of self.new.image end).drv) × (self.new.image ≡ with_drv self.old.image end (end_of self.new.image end).drv)) }
        ensures none { IfNone result (((end_of self.old.image end).drv ≡ []) × (self.new.image ≡ self.old.image)) }
        ensures same { SameModules self.old.image self.new.image }
        ensures given { self.new.run.given ≡ self.old.run.given }
        ensures moves { IfSome result (λ m. is_enabled self.old.run (Places.Drv end) ≡ true → HasMoved self.old self.new (options_in self.old.image m)) }
        ensures rests { IfNone result (is_enabled self.old.run (Places.Drv end) ≡ true → HasMoved self.old self.new 0) }
    {
        let queue = NextQueue::Of {
            place: Place::Drv { end },
        };
        let before = self.ends.len(queue);
        let first = self.ends.end_mut(end).take_driver();
        self.enabling.enable_by_change(&self.ends, queue, before);
        first
    }
}
