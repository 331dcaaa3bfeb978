//! What a terminal shows of the keys that are typed.
ghost use Rattle.std.specs.Prelude.{◌≡◌, ◌++◌, ◌≤◌, ◌*◌, length, OnOk, OnErr};
ghost use Rattle.port_termio.specs.Edit.{shown, width, columns, rub_out, rubbed_out, echo_bytes};

use std::alloc::AllocError;
use strm_msg::NoMem;

/// The key DEL (^?).
const DEL: u8 = 127;

/// The first key that is no control character: the blank.
const BLANK: u8 = 32;

/// The bytes that rub one column out: BS, a blank, and BS.
const RUB_ONE_OUT: &[u8] = &[8, 32, 8];

/// What a terminal is to show of a key.
#[derive(Clone, Copy, Debug, PartialEq, Eq)]
pub enum Echo {
    /// Nothing.
    Nothing,
    /// A key.
    Key {
        /// The key. A control character is shown as `^` and its letter (ECHOCTL), a tab too.
        key: u8,
    },
    /// Columns left of the cursor become blank, and the cursor moves there. They are those of the keys that
    /// were taken back.
    RubOut {
        /// The number of columns, 1 or more.
        columns: u32,
    },
    /// The cursor moves to the first column of the next row.
    NewLine,
    /// The bell rings, as the line is full.
    Bell,
}

impl Echo {
    /// Appends the bytes that show it. Fails only when memory runs out. Then `out` is as it was.
    pub fn show(self, out: &mut Vec<u8>) -> Result<(), NoMem>
        ensures ok { OnOk result (out.new.items ≡ out.old.items ++ echo_bytes self) }
        ensures err { OnErr result (out.new.items ≡ out.old.items) }
    {
        match self {
            Echo::Nothing => {}
            Echo::Key { key } => show_key(out, key)?,
            Echo::RubOut { columns } => show_rub_out(out, columns)?,
            Echo::NewLine => out.extend_from_slice(b"\r\n")?,
            Echo::Bell => out.extend_from_slice(&[7])?,
        }
        Ok(())
    }
}

/// Appends a key as it is shown.
fn show_key(out: &mut Vec<u8>, key: u8) -> Result<(), AllocError>
    ensures ok { OnOk result (out.new.items ≡ out.old.items ++ shown key) }
    ensures err { OnErr result (out.new.items ≡ out.old.items) }
{
    if key < BLANK {
        out.extend_from_slice(&[b'^', key + 64])
    } else if key == DEL {
        out.extend_from_slice(b"^?")
    } else {
        out.extend_from_slice(&[key])
    }
}

/// Appends the bytes that rub columns out.
#[tactic(auto, using(crate::proofs::EchoLemmas::rubbed_out_more))]
fn show_rub_out(out: &mut Vec<u8>, columns: u32) -> Result<(), AllocError>
    ensures ok { OnOk result (out.new.items ≡ out.old.items ++ rubbed_out columns) }
    ensures err { OnErr result (out.new.items ≡ out.old.items) }
{
    let len = out.len();
    for _ in 0..columns {
        if out.extend_from_slice(RUB_ONE_OUT).is_err() {
            out.truncate(len);
            return Err(AllocError);
        }
    }
    Ok(())
}

/// The columns that a key takes: 2 for a control character, else 1.
pub(crate) fn width(key: u8) -> u32
    ensures value { result ≡ width key }
    ensures bound { result ≤ 2 }
{
    if key < BLANK || key == DEL { 2 } else { 1 }
}

/// The columns that a line takes.
pub(crate) fn columns(line: &[u8]) -> u32
    requires { length line.now ≤ 256 }
    ensures { result ≡ columns line.now }
{
    let mut columns = 0;
    for key in line {
        columns += width(*key);
    }
    columns
}

/// The echo of columns that are taken back.
pub(crate) fn rub_out(columns: u32) -> Echo
    ensures { result ≡ rub_out columns }
{
    if columns == 0 {
        Echo::Nothing
    } else {
        Echo::RubOut { columns }
    }
}
