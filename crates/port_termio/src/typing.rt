//! Keys that come in a message, and text that goes to the terminal.
ghost use Rattle.std.specs.Prelude.{◌≡◌, ◌≤◌, length, IfOk};
ghost use Rattle.port_termio.specs.Typing.{line_typed, raw_typed, typed_on, stretch, shown_text};

use crate::editor::LineEditor;
use crate::modes::{Modes, NL};
use std::alloc::Global;
use strm_msg::NoMem;

/// What some keys do.
#[derive(Drop)]
pub struct Stretch {
    /// The bytes that go up, if any do. No byte is the end of the file.
    pub up: Option<Vec<u8>>,
    /// The bytes that are shown.
    pub screen: Vec<u8>,
    /// The number of keys that were typed.
    pub keys: usize,
}

impl LineEditor {
    /// Types keys up to the first that ends a line, if one does.
    fn type_line(&mut self, alloc: Global, keys: &[u8]) -> Result<Stretch, NoMem>
        ensures did { IfOk result (λ did. stretch self.new keys.now did ≡ line_typed self.old.modes self.old.line keys.now) }
        ensures keys { IfOk result (λ did. did.keys ≤ length keys.now) }
        ensures modes { self.new.modes ≡ self.old.modes }
    {
        let mut screen = Vec::new(alloc);
        for i in 0..keys.len() {
            let keyed = self.type_key(keys[i]);
            keyed.echo.show(&mut screen)?;
            if let Some(line) = keyed.up {
                let up = Vec::from_slice(alloc, line.as_slice())?;
                return Ok(Stretch {
                    up: Some(up),
                    screen,
                    keys: i + 1,
                });
            }
        }
        Ok(Stretch {
            up: None,
            screen,
            keys: keys.len(),
        })
    }

    /// Types keys, each of which goes up.
    fn type_raw(&mut self, alloc: Global, keys: &[u8]) -> Result<Stretch, NoMem>
        ensures did { IfOk result (λ did. stretch self.new keys.now did ≡ raw_typed self.old.modes self.old.line keys.now) }
        ensures keys { IfOk result (λ did. did.keys ≤ length keys.now) }
        ensures modes { self.new.modes ≡ self.old.modes }
    {
        let mut up = Vec::new(alloc);
        let mut screen = Vec::new(alloc);
        for key in keys {
            let keyed = self.type_key(*key);
            keyed.echo.show(&mut screen)?;
            if let Some(bytes) = keyed.up {
                up.extend_from_slice(bytes.as_slice())?;
            }
        }
        let up = if keys.is_empty() { None } else { Some(up) };
        Ok(Stretch {
            up,
            screen,
            keys: keys.len(),
        })
    }

    /// Types the keys of a message: with ICANON up to the first that ends a line, and else all of them. Fails
    /// only when memory runs out, and then some of them may have been typed.
    pub fn type_on(&mut self, alloc: Global, keys: &[u8]) -> Result<Stretch, NoMem>
        ensures did { IfOk result (λ did. stretch self.new keys.now did ≡ typed_on self.old.modes self.old.line keys.now) }
        ensures keys { IfOk result (λ did. did.keys ≤ length keys.now) }
        ensures modes { self.new.modes ≡ self.old.modes }
    {
        if self.modes().icanon {
            self.type_line(alloc, keys)
        } else {
            self.type_raw(alloc, keys)
        }
    }
}

/// A text as the terminal gets it. Fails only when memory runs out.
pub fn shown_text(alloc: Global, modes: Modes, text: &[u8]) -> Result<Vec<u8>, NoMem>
    ensures { IfOk result (λ shown. shown.items ≡ shown_text modes text.now) }
{
    if !modes.onlcr {
        return Ok(Vec::from_slice(alloc, text)?);
    }
    let mut shown = Vec::with_capacity(alloc, text.len())?;
    for byte in text {
        if *byte == NL {
            shown.extend_from_slice(b"\r\n")?;
        } else {
            shown.push(*byte)?;
        }
    }
    Ok(shown)
}
