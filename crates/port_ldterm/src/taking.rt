//! What a terminal makes of the messages that it takes.
ghost use Rattle.std.specs.Prelude.{◌≡◌, ◌≤◌, true, IfOk, IfErr, OnErr, OnOk, option_map, length, drop};
ghost use Rattle.strm_msg.specs.Message.{data_msg};
ghost use Rattle.strm_msg.specs.declared.kind.MsgKind.TheVariants.{MIoctl};
ghost use Rattle.strm_msg.specs.declared.words.Side.TheVariants.{Wr};
ghost use Rattle.port_termio.specs.Edit.{sent_by, with_modes};
ghost use Rattle.port_ldterm.specs.Terminal as terminal;
ghost use Rattle.port_ldterm.specs.Terminal.{all_waits, flushes_line, high_taken, takes_memory, unless_empty};
ghost use Rattle.port_termio.specs.Typing.{typed_on};

use crate::terminal::Terminal;
use port_termio::{GET_MODES, LineEditor, Modes, SET_MODES, shown_text};
use std::alloc::Global;
use strm_msg::{BoxedMessage, Bytes, Errno, Message, MsgKind, NoMem, Side};

/// A message of these data in the band of another, and in its box.
fn with_bytes(m: BoxedMessage, bytes: Bytes) -> BoxedMessage
    ensures { result ≡ data_msg m.band bytes }
{
    let band = m.band;
    m.becoming(Message::of_bytes(band, bytes))
}

/// What becomes of the keys of a message.
#[derive(Drop)]
struct Pieces {
    /// What goes up.
    up: Option<BoxedMessage>,
    /// What is shown.
    down: Option<BoxedMessage>,
    /// The keys that are left.
    left: Option<Bytes>,
}

/// The data of a message, none where it has no such part.
fn bytes_of(m: &Message) -> &[u8]
    ensures { result.now ≡ terminal.bytes_of m.now }
{
    match &m.dat {
        Some(dat) => dat.as_slice(),
        None => &[],
    }
}

/// A message of data.
fn data_message(alloc: Global, bytes: &[u8]) -> Result<BoxedMessage, NoMem>
    ensures { IfOk result (λ m. m ≡ data_msg 0 bytes.now) }
{
    BoxedMessage::new(alloc, Message::of_data(alloc, 0, bytes)?)
}

/// A message of data, of a vector.
fn up_message(alloc: Global, up: Option<Vec<u8>>) -> Result<Option<BoxedMessage>, NoMem>
    ensures { IfOk result (λ m. m ≡ option_map (λ bytes. data_msg 0 bytes.items) up) }
{
    match up {
        Some(bytes) => Ok(Some(data_message(alloc, bytes.as_slice())?)),
        None => Ok(None),
    }
}

/// A message of data, unless there is none.
fn screen_message(alloc: Global, screen: &[u8]) -> Result<Option<BoxedMessage>, NoMem>
    ensures { IfOk result (λ m. m ≡ unless_empty screen.now) }
{
    if screen.is_empty() {
        return Ok(None);
    }
    Ok(Some(data_message(alloc, screen)?))
}

/// The keys that are left behind the first ones.
fn left_behind(alloc: Global, keys: &[u8], many: usize) -> Result<Option<Bytes>, NoMem>
    requires { many ≤ length keys.now }
    ensures { IfOk result (λ left. left ≡ terminal.keys_left (drop many keys.now)) }
{
    if many == keys.len() {
        return Ok(None);
    }
    Ok(Some(Bytes::from_slice(alloc, &keys[many..])?))
}

/// Types the keys of a message. Fails only when memory runs out, and then some of them may have been typed.
fn typed_pieces(alloc: Global, editor: &mut LineEditor, keys: &[u8]) -> Result<Pieces, NoMem>
    ensures line { IfOk result (λ _. editor.new.line ≡ (typed_on editor.old.modes editor.old.line keys.now).line) }
    ensures modes { editor.new.modes ≡ editor.old.modes }
    ensures up { IfOk result (λ did. did.up ≡ terminal.going_up (typed_on editor.old.modes editor.old.line keys.now)) }
    ensures down { IfOk result (λ did. did.down ≡ unless_empty (typed_on editor.old.modes editor.old.line keys.now).screen) }
    ensures left { IfOk result (λ did. did.left ≡ terminal.keys_left (typed_on editor.old.modes editor.old.line keys.now).left) }
{
    let did = editor.type_on(alloc, keys)?;
    let left = left_behind(alloc, keys, did.keys)?;
    let down = screen_message(alloc, did.screen.as_slice())?;
    let up = up_message(alloc, did.up)?;
    Ok(Pieces { up, down, left })
}

impl Terminal {
    /// Lets a message go on to a side as soon as there is room.
    fn pass_on(&mut self, side: Side, m: BoxedMessage)
        ensures { self.new ≡ terminal.passed_on self.old side m }
    {
        match side {
            Side::Rd => self.up = Some(m),
            Side::Wr => self.down = Some(m),
        }
    }

    /// Types the keys of a message. It comes back where memory runs out, and nothing is changed.
    fn take_keys(&mut self, m: BoxedMessage) -> Result<(), BoxedMessage>
        ensures ok { OnOk result (self.new ≡ terminal.keys_taken self.old m) }
        ensures err { IfErr result (λ same. same ≡ m) }
        ensures same { OnErr result (self.new ≡ self.old) }
    {
        let mut editor = self.editor.copy();
        let Ok(did) = typed_pieces(self.alloc, &mut editor, bytes_of(&m)) else {
            drop(editor);
            return Err(m);
        };
        self.editor = editor;
        self.up = did.up;
        self.down = did.down;
        self.back = match did.left {
            Some(left) => Some((Side::Rd, with_bytes(m, left))),
            None => {
                drop(m);
                None
            }
        };
        Ok(())
    }

    /// Shows the text of a message. It comes back where memory runs out, and nothing is changed.
    fn take_text(&mut self, m: BoxedMessage) -> Result<(), BoxedMessage>
        ensures ok { OnOk result (self.new ≡ terminal.text_taken self.old m) }
        ensures err { IfErr result (λ same. same ≡ m) }
        ensures same { OnErr result (self.new ≡ self.old) }
    {
        let Ok(text) = shown_text(self.alloc, self.editor.modes(), bytes_of(&m)) else {
            return Err(m);
        };
        let Ok(text) = Bytes::from_vec(self.alloc, text) else {
            return Err(m);
        };
        self.down = Some(with_bytes(m, text));
        Ok(())
    }

    /// Tells the modes.
    fn tell_modes(&mut self, m: BoxedMessage, id: u64) -> Result<(), BoxedMessage>
        ensures ok { OnOk result (self.new ≡ terminal.modes_told self.old id) }
        ensures err { IfErr result (λ same. same ≡ m) }
        ensures same { OnErr result (self.new ≡ self.old) }
    {
        let modes = self.editor.modes().bytes();
        let Ok(bytes) = Bytes::from_slice(self.alloc, &modes) else {
            return Err(m);
        };
        let answer = Message::of_ack(id, 0, Some(bytes));
        self.urgent = Some((Side::Rd, m.becoming(answer)));
        Ok(())
    }

    /// Sets the modes. Without ICANON the line that is being typed goes up.
    fn set_modes(&mut self, m: BoxedMessage, id: u64, modes: Modes) -> Result<(), BoxedMessage>
        ensures ok { OnOk result (self.new ≡ terminal.modes_set self.old id modes) }
        ensures err { IfErr result (λ same. same ≡ m) }
        ensures same { OnErr result (self.new ≡ self.old) }
    {
        let mut editor = self.editor.copy();
        let up = match editor.set_modes(modes) {
            Some(line) => match data_message(self.alloc, line.as_slice()) {
                Ok(up) => Some(up),
                Err(_) => {
                    drop(editor);
                    return Err(m);
                }
            },
            None => None,
        };
        self.editor = editor;
        self.up = up;
        self.urgent = Some((Side::Rd, m.becoming(Message::of_ack(id, 0, None))));
        Ok(())
    }

    /// Answers an ioctl, if it is one of the terminal's; any other goes on down.
    fn take_ioctl(&mut self, m: BoxedMessage, id: u64, cmd: u32) -> Result<(), BoxedMessage>
        ensures ok { OnOk result (self.new ≡ terminal.ioctl_taken self.old m id cmd) }
        ensures err { IfErr result (λ same. same ≡ m) }
        ensures same { OnErr result (self.new ≡ self.old) }
        ensures memory { OnErr result (takes_memory Wr (MIoctl id cmd) ≡ true) }
    {
        if cmd == GET_MODES {
            return self.tell_modes(m, id);
        }
        if cmd != SET_MODES {
            self.pass_on(Side::Wr, m);
            return Ok(());
        }
        let Some(modes) = Modes::of(bytes_of(&m)) else {
            let answer = Message::of_nak(id, Errno::EINVAL);
            self.urgent = Some((Side::Rd, m.becoming(answer)));
            return Ok(());
        };
        self.set_modes(m, id, modes)
    }

    /// Makes something of an ordinary message. It comes back where memory runs out, and nothing is changed.
    fn take_ordinary(&mut self, side: Side, m: BoxedMessage) -> Result<(), BoxedMessage>
        ensures ok { OnOk result (self.new ≡ terminal.ordinary_taken self.old side m.kind m) }
        ensures err { IfErr result (λ same. same ≡ m) }
        ensures same { OnErr result (self.new ≡ self.old) }
        ensures memory { OnErr result (takes_memory side m.kind ≡ true) }
    {
        match (side, m.kind) {
            (Side::Rd, MsgKind::MData) => self.take_keys(m),
            (Side::Wr, MsgKind::MData) => self.take_text(m),
            (Side::Wr, MsgKind::MIoctl { id, cmd }) => self.take_ioctl(m, id, cmd),
            _ => {
                self.pass_on(side, m);
                Ok(())
            }
        }
    }

    /// Lets a message of high priority go on at once. A flush of the read side empties the line before.
    fn take_high(&mut self, side: Side, m: BoxedMessage)
        ensures { self.new ≡ high_taken self.old side m }
    {
        if flushes_line(m.kind) {
            self.editor.flush();
            self.up = None;
        }
        self.urgent = Some((side, m));
    }

    /// Makes something of a message that was taken. Where memory runs out for that, it is to be put back.
    pub(crate) fn take_in(&mut self, side: Side, m: BoxedMessage)
        ensures { terminal.TakesIn self.old side m self.new }
    {
        if m.is_high() {
            self.take_high(side, m);
            return;
        }
        if let Err(m) = self.take_ordinary(side, m) {
            self.back = Some((side, m));
            self.waits.all = true;
        }
    }
}

/// Whether a message flushes the line that is being typed: a flush of the read side, in band 0 or in all.
fn flushes_line(kind: MsgKind) -> bool
    ensures { result ≡ flushes_line kind }
{
    match kind {
        MsgKind::MFlush { r, w: _, band } => r && (band.is_none() || band == Some(0)),
        _ => false,
    }
}
