//! A terminal's line discipline: what it keeps, and what it does with messages.
ghost use Rattle.std.specs.Prelude.{◌≡◌, ◌↔◌, ◌++◌, [], true, unwrap_or, option_map, IfOk, IsTrue, OnOk, OnErr};
ghost use Rattle.strm_msg.specs.Message.{data_msg};
ghost use Rattle.strm_msg.specs.declared.kind.MsgKind.TheVariants.{MData};
ghost use Rattle.strm_msg.specs.declared.words.Side.TheVariants as Side;
ghost use Rattle.strm_module.specs.Kinds.{all_go_up};
ghost use Rattle.port_termio.specs.Modes.{modes_in};
ghost use Rattle.port_termio.specs.Typing.{shown_text};
ghost use Rattle.port_ldterm_module.specs.Ldterm as meant;
ghost use Rattle.port_ldterm_module.specs.declared.kinds.Discipline.TheVariants.{Terminal};

use port_termio::{GET_MODES, LineEditor, Modes, SET_MODES, shown_text};
use std::alloc::Global;
use strm_module::{Outs, Turn, pass_on, reply};
use strm_msg::{BoxedMessage, Bytes, Errno, Message, MsgKind, NoMem, Side as Sides};

/// The number of bytes that are still to be shown from which no more keys are typed.
pub const MOST_ECHO: usize = 64;

/// The modes of a terminal after login: keys make lines and are shown, CR is read as NL, and NL is shown as CR
/// and NL.
pub const USUAL_MODES: Modes = Modes {
    icanon: true,
    echo: true,
    icrnl: true,
    onlcr: true,
};

/// What a terminal's line discipline keeps.
///
/// Data of band 0 that comes up is keys. The service of the read side types them, up to the first that ends a
/// line, and the line goes up as a message of its own. Then it types on. What the keys show is owed below,
/// and the service of the write side sends it before the messages that wait there. While `MOST_ECHO` bytes
/// are owed, no more keys are typed: they wait here and in the queue, and none is lost while there is room.
///
/// A text on its way down is shown as the modes say. Two ioctls, `GET_MODES` and `SET_MODES`, are answered. A
/// flush of the read side, of band 0 or of all, forgets the keys and the line, and one of the write side what
/// is owed. A hangup forgets all but the modes. All other messages go on unchanged.
///
/// Keys are typed by a service alone: both sides need a queue.
#[derive(Debug, Drop, PartialEq, Eq)]
pub struct Ldterm {
    /// The modes, and the line that is being typed.
    pub editor: LineEditor,
    /// The keys that came and are not typed yet.
    pub keys: Bytes,
    /// A line that goes up without its end, as ICANON was turned off.
    pub up: Bytes,
    /// The bytes that are still to be shown.
    pub echo: Bytes,
}

/// Bytes with others behind them.
fn joined(alloc: Global, bytes: &Bytes, more: &[u8]) -> Result<Bytes, NoMem>
    ensures { IfOk result (λ all. all ≡ bytes.now ++ more.now) }
{
    if bytes.is_empty() {
        return Bytes::from_slice(alloc, more);
    }
    let mut all = Vec::from_slice(alloc, bytes.as_slice())?;
    all.extend_from_slice(more)?;
    Bytes::from_vec(alloc, all)
}

/// The bytes of a data part.
fn bytes_of(part: &Option<Bytes>) -> &[u8]
    ensures { result.now ≡ unwrap_or part.now [] }
{
    match part {
        Some(bytes) => bytes.as_slice(),
        None => &[],
    }
}

/// A text as the terminal gets it.
fn shown_part(alloc: Global, modes: Modes, part: &Option<Bytes>) -> Result<Option<Bytes>, NoMem>
    ensures { IfOk result (λ out. out ≡ option_map (shown_text modes) part.now) }
{
    match part {
        Some(bytes) => {
            let shown = shown_text(alloc, modes, bytes.as_slice())?;
            Ok(Some(Bytes::from_vec(alloc, shown)?))
        }
        None => Ok(None),
    }
}

/// A message of data in a box.
fn data_message(alloc: Global, bytes: Bytes) -> Result<BoxedMessage, NoMem>
    ensures { IfOk result (λ m. m ≡ data_msg 0 bytes) }
{
    BoxedMessage::new(alloc, Message::of_bytes(0, bytes))
}

/// A line that goes up as a message of its own.
fn line_up(alloc: Global, up: Option<Vec<u8>>) -> Result<Outs, NoMem>
    ensures { IfOk result (λ outs. outs.items ≡ meant.line_up (option_map (λ line. line.items) up)) }
{
    match up {
        Some(line) => {
            let line = Bytes::from_vec(alloc, line)?;
            Ok(pass_on(Sides::Rd, data_message(alloc, line)?))
        }
        None => Ok(Outs::new()),
    }
}

impl Ldterm {
    /// A terminal at which nothing was typed.
    pub fn new(modes: Modes) -> Ldterm
        ensures { result ≡ meant.fresh modes }
    {
        Ldterm {
            editor: LineEditor::new(modes),
            keys: Bytes::empty(),
            up: Bytes::empty(),
            echo: Bytes::empty(),
        }
    }

    /// An equal one. Fails only when memory runs out.
    pub(crate) fn copy(&self) -> Result<Ldterm, NoMem>
        ensures { IfOk result (λ copy. copy ≡ self.now) }
    {
        Ok(Ldterm {
            editor: self.editor.copy(),
            keys: self.keys.copy()?,
            up: self.up.copy()?,
            echo: self.echo.copy()?,
        })
    }

    /// Whether another is the same, and keeps the same.
    pub(crate) fn is_same(&self, other: &Ldterm) -> bool
        ensures { result ≡ true ↔ self.now ≡ other.now }
    {
        self.editor.modes() == other.editor.modes()
            && self.editor.line() == other.editor.line()
            && self.keys.as_slice() == other.keys.as_slice()
            && self.up.as_slice() == other.up.as_slice()
            && self.echo.as_slice() == other.echo.as_slice()
    }

    /// Keeps keys that came, or lets the data of another band go on.
    fn take_keys(&mut self, alloc: Global, m: BoxedMessage) -> Result<Outs, NoMem>
        ensures outs { IfOk result (λ outs. outs.items ≡ (meant.keys_action self.old m).outs) }
        ensures kept { OnOk result (Terminal self.new ≡ (meant.keys_action self.old m).kind) }
        ensures err { OnErr result (self.new ≡ self.old) }
    {
        if m.band != 0 {
            return Ok(pass_on(Sides::Rd, m));
        }
        self.keys = joined(alloc, &self.keys, bytes_of(&m.dat))?;
        Ok(Outs::new())
    }

    /// Shows a text.
    fn show(&self, alloc: Global, m: BoxedMessage) -> Result<Outs, NoMem>
        requires { m.kind ≡ MData }
        ensures { IfOk result (λ outs. outs.items ≡ (meant.shown self.now m).outs) }
    {
        let dat = shown_part(alloc, self.editor.modes(), &m.dat)?;
        Ok(pass_on(Sides::Wr, m.with_dat(dat)))
    }

    /// Sets the modes that an ioctl has, if it has some.
    fn set_modes(&mut self, alloc: Global, m: BoxedMessage, id: u64) -> Result<Outs, NoMem>
        ensures outs { IfOk result (λ outs. outs.items ≡ (meant.set_or_refused self.old id (modes_in (unwrap_or m.dat []))).outs) }
        ensures kept { OnOk result (Terminal self.new ≡ (meant.set_or_refused self.old id (modes_in (unwrap_or m.dat []))).kind) }
        ensures err { OnErr result (self.new ≡ self.old) }
    {
        let Some(modes) = Modes::of(bytes_of(&m.dat)) else {
            return Ok(reply(m.becoming(Message::of_nak(id, Errno::EINVAL))));
        };
        let mut editor = self.editor.copy();
        if let Some(line) = editor.set_modes(modes) {
            self.up = joined(alloc, &self.up, line.as_slice())?;
        }
        self.editor = editor;
        Ok(reply(m.becoming(Message::of_ack(id, 0, None))))
    }

    /// Answers an ioctl, if it is one of the terminal's; any other goes on down.
    fn take_ioctl(
        &mut self,
        alloc: Global,
        m: BoxedMessage,
        id: u64,
        cmd: u32,
    ) -> Result<Outs, NoMem>
        ensures outs { IfOk result (λ outs. outs.items ≡ (meant.ioctl_action self.old m id cmd).outs) }
        ensures kept { OnOk result (Terminal self.new ≡ (meant.ioctl_action self.old m id cmd).kind) }
        ensures err { OnErr result (self.new ≡ self.old) }
    {
        if cmd == SET_MODES {
            return self.set_modes(alloc, m, id);
        }
        if cmd != GET_MODES {
            return Ok(pass_on(Sides::Wr, m));
        }
        let modes = Bytes::from_slice(alloc, &self.editor.modes().bytes())?;
        Ok(reply(m.becoming(Message::of_ack(id, 0, Some(modes)))))
    }

    /// Forgets what a flush names.
    fn flush(&mut self, r: bool, w: bool)
        ensures { self.new ≡ meant.flushed self.old r w }
    {
        if r {
            self.editor.flush();
            self.keys = Bytes::empty();
            self.up = Bytes::empty();
        }
        if w {
            self.echo = Bytes::empty();
        }
    }

    /// Lets a message pass, which may flush.
    fn let_by(&mut self, kind: MsgKind)
        ensures { self.new ≡ meant.passing self.old kind }
    {
        match kind {
            MsgKind::MFlush { r, w, band } if band.is_none() || band == Some(0) => self.flush(r, w),
            MsgKind::MHangup => self.flush(true, true),
            _ => {}
        }
    }

    /// Processes a message.
    pub(crate) fn process(
        &mut self,
        alloc: Global,
        side: Sides,
        m: BoxedMessage,
    ) -> Result<Outs, NoMem>
        ensures outs { IfOk result (λ outs. outs.items ≡ (meant.ldterm_action self.old side m.kind m).outs) }
        ensures kept { OnOk result (Terminal self.new ≡ (meant.ldterm_action self.old side m.kind m).kind) }
        ensures err { OnErr result (self.new ≡ self.old) }
        ensures upward { side ≡ Side.Rd → IfOk result (λ outs. IsTrue (all_go_up outs.items)) }
    {
        match (side, m.kind) {
            (Sides::Rd, MsgKind::MData) => self.take_keys(alloc, m),
            (Sides::Wr, MsgKind::MData) => self.show(alloc, m),
            (Sides::Wr, MsgKind::MIoctl { id, cmd }) => self.take_ioctl(alloc, m, id, cmd),
            _ => {
                self.let_by(m.kind);
                Ok(pass_on(side, m))
            }
        }
    }

    /// The turn of the service of a side.
    pub(crate) fn turn(&self, side: Sides) -> Turn
        ensures { result ≡ meant.ldterm_turn self.now side }
    {
        match side {
            Sides::Rd if !self.up.is_empty() => Turn::Sends { band: Some(0) },
            Sides::Rd if self.echo.len() >= MOST_ECHO => Turn::Shut,
            Sides::Rd if !self.keys.is_empty() => Turn::Sends { band: Some(0) },
            Sides::Wr if !self.echo.is_empty() => Turn::Sends { band: Some(0) },
            _ => Turn::Serves,
        }
    }

    /// Types the keys that wait, up to the first that ends a line.
    fn type_on(&mut self, alloc: Global) -> Result<Outs, NoMem>
        ensures outs { IfOk result (λ outs. outs.items ≡ (meant.typing self.old).outs) }
        ensures kept { OnOk result (Terminal self.new ≡ (meant.typing self.old).kind) }
        ensures err { OnErr result (self.new ≡ self.old) }
    {
        let mut editor = self.editor.copy();
        let did = editor.type_on(alloc, self.keys.as_slice())?;
        let keys = Bytes::from_slice(alloc, &self.keys.as_slice()[did.keys..])?;
        let echo = joined(alloc, &self.echo, did.screen.as_slice())?;
        let outs = line_up(alloc, did.up)?;
        self.editor = editor;
        self.keys = keys;
        self.echo = echo;
        Ok(outs)
    }

    /// Sends the line up that new modes let go.
    fn send_up(&mut self, alloc: Global) -> Result<Outs, NoMem>
        ensures outs { IfOk result (λ outs. outs.items ≡ (meant.up_sent self.old).outs) }
        ensures kept { OnOk result (Terminal self.new ≡ (meant.up_sent self.old).kind) }
        ensures err { OnErr result (self.new ≡ self.old) }
    {
        let m = data_message(alloc, self.up.copy()?)?;
        self.up = Bytes::empty();
        Ok(pass_on(Sides::Rd, m))
    }

    /// Sends what is still to be shown.
    fn send_echo(&mut self, alloc: Global) -> Result<Outs, NoMem>
        ensures outs { IfOk result (λ outs. outs.items ≡ (meant.echo_sent self.old).outs) }
        ensures kept { OnOk result (Terminal self.new ≡ (meant.echo_sent self.old).kind) }
        ensures err { OnErr result (self.new ≡ self.old) }
    {
        let m = data_message(alloc, self.echo.copy()?)?;
        self.echo = Bytes::empty();
        Ok(pass_on(Sides::Wr, m))
    }

    /// Sends something of its own on a side.
    pub(crate) fn own(&mut self, alloc: Global, side: Sides) -> Result<Outs, NoMem>
        ensures outs { IfOk result (λ outs. outs.items ≡ (meant.ldterm_own self.old side).outs) }
        ensures kept { OnOk result (Terminal self.new ≡ (meant.ldterm_own self.old side).kind) }
        ensures err { OnErr result (self.new ≡ self.old) }
        ensures upward { side ≡ Side.Rd → IfOk result (λ outs. IsTrue (all_go_up outs.items)) }
    {
        match side {
            Sides::Rd if self.up.is_empty() => self.type_on(alloc),
            Sides::Rd => self.send_up(alloc),
            Sides::Wr => self.send_echo(alloc),
        }
    }
}
