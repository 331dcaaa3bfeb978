//! The editor of a line that is being typed.
ghost use Rattle.std.specs.Prelude.{◌≡◌, [], option_map};
ghost use Rattle.port_termio.specs.Edit.{edited, raw, key_typed, ended, taken_back, text_typed, without_last, sent_by, with_modes};
ghost use Rattle.port_termio.specs.Keys.{bytes_of, outcome};

use crate::echo::{Echo, columns, rub_out, width};
use crate::modes::{Modes, NL};
use arrayvec::ArrayVec;
use std::marker::Model;

/// The most keys of a line, without the NL that ends it.
pub const MAX_CANON: usize = 255;

/// The most bytes of a line that goes up: `MAX_CANON` keys and an NL.
pub const LONGEST_LINE: usize = MAX_CANON + 1;

/// The key EOF (^D). It ends a line, and is no byte of it.
const EOF: u8 = 4;

/// The key DEL (^?), an ERASE.
const DEL: u8 = 127;

/// The key BS (^H), an ERASE too.
const BS: u8 = 8;

/// The key KILL (^U).
const KILL: u8 = 21;

/// What a key does, beside what it changes in the line that is being typed.
#[derive(Debug, Drop, PartialEq, Eq)]
pub struct Keyed {
    /// The line that the key sends up, if it sends one. An empty line is the end of the file.
    pub up: Option<ArrayVec<u8, LONGEST_LINE>>,
    /// What the terminal shows.
    pub echo: Echo,
}

/// The line that is being typed at a terminal, and the terminal's modes. Contracts see both as a record.
#[derive(Debug, Drop, PartialEq, Eq)]
pub struct LineEditor {
    modes: Modes,
    line: ArrayVec<u8, LONGEST_LINE>,
}

impl Model for LineEditor {
    ghost use Rattle.std.specs.Prelude.{◌≤◌, length};
    ghost use Rattle.port_termio.specs.declared.editor.TheConstants.{MAX_CANON};
    ghost use Rattle.port_termio.specs.Edit.{Editing};

    ghost Value = { Editing };

    ghost view = { λ editor. record { modes = editor.modes; line = editor.line.items } };

    ghost invariant = { λ editor. length editor.line.items ≤ MAX_CANON };

    ghost inverse = { λ editing. record { modes = editing.modes; line = record { items = editing.line } } };
}

/// What a key does without ICANON: it goes up by itself.
fn raw(key: u8) -> Keyed
    ensures up { option_map bytes_of result.up ≡ (raw [] key).up }
    ensures echo { result.echo ≡ (raw [] key).echo }
{
    let mut up = ArrayVec::new();
    up.push(key);
    let echo = if key == NL {
        Echo::NewLine
    } else {
        Echo::Key { key }
    };
    Keyed { up: Some(up), echo }
}

/// What an end of a line does: the line goes up.
fn ended(line: ArrayVec<u8, LONGEST_LINE>, echo: Echo) -> Keyed
    ensures up { option_map bytes_of result.up ≡ (ended line.items echo).up }
    ensures echo { result.echo ≡ echo }
{
    Keyed {
        up: Some(line),
        echo,
    }
}

impl LineEditor {
    /// An editor with an empty line.
    pub fn new(modes: Modes) -> LineEditor
        ensures { result ≡ record { modes = modes; line = [] } }
    {
        LineEditor {
            modes,
            line: ArrayVec::new(),
        }
    }

    /// An equal editor.
    pub fn copy(&self) -> LineEditor
        ensures { result ≡ self.now }
    {
        let Ok(line) = self.line.clone() else {
            unreachable!()
        };
        LineEditor {
            modes: self.modes,
            line,
        }
    }

    /// The modes.
    pub fn modes(&self) -> Modes
        ensures { result ≡ self.now.modes }
    {
        self.modes
    }

    /// The keys of the line that is being typed, at most `MAX_CANON`.
    pub fn line(&self) -> &[u8]
        ensures { result.now ≡ self.now.line }
    {
        self.line.as_slice()
    }

    /// Types a key (termio(7)). With ICANON an NL or an EOF (^D) ends the line, which goes up. An ERASE (DEL
    /// or ^H) takes back the last key, and a KILL (^U) all of them. Every other key is text. A line of
    /// `MAX_CANON` keys takes no more text, and rings the bell.
    ///
    /// Without ICANON the key goes up by itself. Without ECHO the terminal shows nothing.
    pub fn type_key(&mut self, key: u8) -> Keyed
        ensures did { outcome self.new result ≡ key_typed self.old.modes self.old.line key }
        ensures modes { self.new.modes ≡ self.old.modes }
    {
        let key = self.modes.meant(key);
        let mut keyed = if self.modes.icanon {
            self.edit(key)
        } else {
            raw(key)
        };
        if !self.modes.echo {
            keyed.echo = Echo::Nothing;
        }
        keyed
    }

    /// What a key does with ICANON.
    fn edit(&mut self, key: u8) -> Keyed
        ensures did { outcome self.new result ≡ edited self.old.line key }
        ensures modes { self.new.modes ≡ self.old.modes }
    {
        match key {
            NL => {
                let mut line = self.line.take();
                line.push(NL);
                ended(line, Echo::NewLine)
            }
            EOF => ended(self.line.take(), Echo::Nothing),
            DEL | BS => self.take_back_last(),
            KILL => self.take_back_all(),
            _ => self.type_text(key),
        }
    }

    /// Takes the last key back, if there is one.
    fn take_back_last(&mut self) -> Keyed
        ensures did { outcome self.new result ≡ taken_back self.old.line (without_last self.old.line) }
        ensures modes { self.new.modes ≡ self.old.modes }
    {
        let echo = match self.line.pop() {
            Some(key) => rub_out(width(key)),
            None => Echo::Nothing,
        };
        Keyed { up: None, echo }
    }

    /// Takes all keys of the line back.
    fn take_back_all(&mut self) -> Keyed
        ensures did { outcome self.new result ≡ taken_back self.old.line [] }
        ensures modes { self.new.modes ≡ self.old.modes }
    {
        let echo = rub_out(columns(self.line.as_slice()));
        self.line.clear();
        Keyed { up: None, echo }
    }

    /// Types a key of text, which a full line does not take.
    fn type_text(&mut self, key: u8) -> Keyed
        ensures did { outcome self.new result ≡ text_typed self.old.line key }
        ensures modes { self.new.modes ≡ self.old.modes }
    {
        if self.line.len() == MAX_CANON {
            return Keyed {
                up: None,
                echo: Echo::Bell,
            };
        }
        self.line.push(key);
        Keyed {
            up: None,
            echo: Echo::Key { key },
        }
    }

    /// Forgets the line that is being typed, as a flush of the read side does. The modes stay.
    pub fn flush(&mut self)
        ensures { self.new ≡ record self.old { line = [] } }
    {
        self.line.clear();
    }

    /// Sets the modes. Without ICANON the line that is being typed goes up, unless it is empty. It goes up
    /// without an NL.
    pub fn set_modes(&mut self, modes: Modes) -> Option<ArrayVec<u8, LONGEST_LINE>>
        ensures up { option_map bytes_of result ≡ sent_by modes self.old.line }
        ensures editor { self.new ≡ with_modes modes self.old.line }
    {
        self.modes = modes;
        if modes.icanon || self.line.is_empty() {
            return None;
        }
        Some(self.line.take())
    }
}
