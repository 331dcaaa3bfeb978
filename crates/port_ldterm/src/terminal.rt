//! The line discipline of a terminal, as the owner of a module.
ghost use Rattle.std.specs.Prelude.{◌≡◌};
ghost use Rattle.port_ldterm.specs.Terminal as terminal;
ghost use Rattle.port_ldterm.specs.Terminal.{fresh_terminal, side_waits, HearsReply};

use port_termio::{LineEditor, Modes};
use std::alloc::Global;
use std::marker::Model;
use std::mem;
use strm_head_calls::{Reply, ServiceCall, Wanted};
use strm_msg::{BoxedMessage, Side};
use strm_owner::{Owner, Told};

/// What a terminal has asked for last.
#[derive(Clone, Copy)]
pub(crate) enum Asked {
    /// Nothing.
    Nothing,
    /// To send on what goes before all else.
    Urgent { side: Side },
    /// To put a message back.
    Back { side: Side },
    /// To send on what goes up.
    Up,
    /// To send on what goes down.
    Down,
    /// To take a message.
    Take { side: Side },
}

/// What must wait until something comes.
#[derive(Clone, Copy)]
pub(crate) struct Waits {
    /// Everything.
    pub(crate) all: bool,
    /// What goes up.
    pub(crate) up: bool,
    /// What goes down.
    pub(crate) down: bool,
    /// A message of the read side.
    pub(crate) rd: bool,
    /// A message of the write side.
    pub(crate) wr: bool,
}

/// Nothing waits.
const NOTHING_WAITS: Waits = Waits {
    all: false,
    up: false,
    down: false,
    rd: false,
    wr: false,
};

/// A terminal's line discipline, as the owner of a module that the program serves (ldterm(7M)). Pump it after
/// each call on the stream, and after each message that comes in.
///
/// Keys that come from below go up in lines, and are shown below. Text from above is shown. Two ioctls,
/// `GET_MODES` and `SET_MODES`, are answered, and all else goes on. It keeps one message a side that waits
/// for room, so it loses nothing, and holds back what comes behind.
#[derive(Drop)]
pub struct Terminal {
    pub(crate) editor: LineEditor,
    pub(crate) urgent: Option<(Side, BoxedMessage)>,
    pub(crate) back: Option<(Side, BoxedMessage)>,
    pub(crate) up: Option<BoxedMessage>,
    pub(crate) down: Option<BoxedMessage>,
    pub(crate) waits: Waits,
    pub(crate) asked: Asked,
    pub(crate) alloc: Global,
}

impl Model for Terminal {
    ghost use Rattle.port_ldterm.specs.Terminal.{TerminalValue};

    ghost Value = { TerminalValue };

    ghost view = { λ t. record {
      editor = t.editor;
      urgent = t.urgent;
      back = t.back;
      up = t.up;
      down = t.down;
      waits = t.waits;
      asked = t.asked;
    } };
}

impl Terminal {
    /// A terminal at which nothing was typed.
    pub fn new(alloc: Global, modes: Modes) -> Terminal
        ensures { result ≡ fresh_terminal modes }
    {
        Terminal {
            editor: LineEditor::new(modes),
            urgent: None,
            back: None,
            up: None,
            down: None,
            waits: NOTHING_WAITS,
            asked: Asked::Nothing,
            alloc,
        }
    }

    /// The line that is being typed, and the modes.
    pub fn editor(&self) -> &LineEditor
        ensures { result.now ≡ self.now.editor }
    {
        &self.editor
    }

    /// Asks for nothing, as everything waits.
    fn idle(&mut self) -> Option<(Side, ServiceCall)>
        ensures { (result, self.new) ≡ terminal.idle self.old }
    {
        self.waits = NOTHING_WAITS;
        self.asked = Asked::Nothing;
        None
    }

    /// The messages that are taken.
    fn wanted(&self) -> Wanted
        ensures { result ≡ terminal.wanted self.now }
    {
        if self.up.is_none() && self.down.is_none() {
            Wanted::Any
        } else {
            Wanted::Hipri
        }
    }

    /// Asks for a message of a side.
    fn take_from(&mut self, side: Side) -> Option<(Side, ServiceCall)>
        ensures { (result, self.new) ≡ terminal.taking self.old side }
    {
        self.asked = Asked::Take { side };
        let flag = self.wanted();
        Some((side, ServiceCall::Getq { flag }))
    }

    /// Asks for a message, unless both sides wait.
    fn next_taken(&mut self) -> Option<(Side, ServiceCall)>
        ensures { (result, self.new) ≡ terminal.next_taken self.old }
    {
        if !self.waits.rd {
            self.take_from(Side::Rd)
        } else if !self.waits.wr {
            self.take_from(Side::Wr)
        } else {
            self.idle()
        }
    }

    /// Asks to send on what goes up or down, and else for a message.
    fn next_sent(&mut self) -> Option<(Side, ServiceCall)>
        ensures { (result, self.new) ≡ terminal.next_up self.old self.old.waits.up self.old.up }
    {
        if !self.waits.up {
            if let Some(m) = self.up.take() {
                self.asked = Asked::Up;
                return Some((Side::Rd, ServiceCall::Putnext { m }));
            }
        }
        if !self.waits.down {
            if let Some(m) = self.down.take() {
                self.asked = Asked::Down;
                return Some((Side::Wr, ServiceCall::Putnext { m }));
            }
        }
        self.next_taken()
    }

    /// Notes that no message of a side can be taken.
    fn wait_for(&mut self, side: Side)
        ensures { self.new ≡ side_waits self.old side }
    {
        match side {
            Side::Rd => self.waits.rd = true,
            Side::Wr => self.waits.wr = true,
        }
    }

    /// Makes something of the reply to what was asked for.
    fn hear_reply(&mut self, asked: Asked, reply: Reply)
        ensures { HearsReply self.old asked reply self.new }
    {
        match (asked, reply) {
            (Asked::Take { side }, Reply::Message { m }) => self.take_in(side, m),
            (Asked::Take { side }, reply) => {
                drop(reply);
                self.wait_for(side);
            }
            (_, reply) => {
                drop(reply);
                self.waits.rd = false;
                self.waits.wr = false;
            }
        }
    }

    /// Keeps what a refused call was to send.
    fn put_off(&mut self, asked: Asked, call: ServiceCall)
        ensures { self.new ≡ terminal.put_off self.old asked call }
    {
        match (asked, call) {
            (Asked::Urgent { side }, ServiceCall::Putnext { m }) => {
                self.urgent = Some((side, m));
                self.waits.all = true;
            }
            (Asked::Back { side }, ServiceCall::Putbq { m }) => {
                self.back = Some((side, m));
                self.waits.all = true;
            }
            (Asked::Up, ServiceCall::Putnext { m }) => {
                self.up = Some(m);
                self.waits.up = true;
            }
            (Asked::Down, ServiceCall::Putnext { m }) => {
                self.down = Some(m);
                self.waits.down = true;
            }
            (Asked::Take { side }, call) => {
                drop(call);
                self.wait_for(side);
            }
            (_, call) => {
                drop(call);
                self.waits.all = true;
            }
        }
    }
}

/// Its calls are those of `next_of`, and it makes of the answers what `heard` says.
impl Owner for Terminal {
    ghost use Rattle.port_ldterm.specs.Terminal.{next_of, Hears};

    ghost Asks = { λ t call after. (call, after) ≡ next_of t };

    ghost Hears = { λ t told after. Hears t told after };

    fn next_call(&mut self) -> Option<(Side, ServiceCall)> {
        if self.waits.all {
            return self.idle();
        }
        if let Some((side, m)) = self.urgent.take() {
            self.asked = Asked::Urgent { side };
            return Some((side, ServiceCall::Putnext { m }));
        }
        if let Some((side, m)) = self.back.take() {
            self.asked = Asked::Back { side };
            return Some((side, ServiceCall::Putbq { m }));
        }
        self.next_sent()
    }

    fn hear(&mut self, told: Told) {
        let asked = mem::replace(&mut self.asked, Asked::Nothing);
        match told {
            Told::Done { reply } => self.hear_reply(asked, reply),
            Told::Refused { refusal: _, call } => self.put_off(asked, call),
            Told::Broke => self.waits.all = true,
        }
    }
}
