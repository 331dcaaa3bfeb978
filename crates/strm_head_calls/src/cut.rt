//! The bytes that a getmsg, a peek or a read takes of a message.
ghost use Rattle.std.specs.Prelude.{◌≡◌, true, is_some, IfOk};
ghost use Rattle.strm_head_calls.specs.Cut.{cut_of, given, left_of, more_of, remainder};

use crate::More;
use std::alloc::Global;
use strm_msg::{Bytes, Message, NoMem};

/// The bytes that are given of a message, the parts that stay, and the message that they make.
#[derive(Drop)]
pub struct Cut {
    /// The bytes that are given of the control part.
    pub ctl: Option<Bytes>,
    /// The bytes that are given of the data part.
    pub dat: Option<Bytes>,
    /// The parts that stay (MORECTL, MOREDATA).
    pub more: More,
    /// The message that the parts which stay make.
    pub rest: Option<Message>,
}

/// The bytes that are given of a part.
fn given(alloc: Global, most: Option<u16>, part: &Option<Bytes>) -> Result<Option<Bytes>, NoMem>
    ensures { IfOk result (λ bytes. bytes ≡ given most part.now) }
{
    let Some(most) = most else { return Ok(None) };
    let Some(bytes) = part else { return Ok(None) };
    let end = bytes.len().min(usize::from(most));
    Ok(Some(bytes.slice(alloc, 0, end)?))
}

/// The rest of a part.
fn left_of(alloc: Global, most: Option<u16>, part: &Option<Bytes>) -> Result<Option<Bytes>, NoMem>
    ensures { IfOk result (λ bytes. bytes ≡ left_of most part.now) }
{
    let Some(bytes) = part else { return Ok(None) };
    let Some(most) = most else {
        return Ok(Some(bytes.copy()?));
    };
    let most = usize::from(most);
    if bytes.len() <= most {
        return Ok(None);
    }
    Ok(Some(bytes.slice(alloc, most, bytes.len())?))
}

fn more_of(ctl: &Option<Bytes>, dat: &Option<Bytes>) -> More
    ensures { result ≡ more_of ctl.now dat.now }
{
    match (ctl, dat) {
        (None, None) => More::Nothing,
        (None, Some(_)) => More::Data,
        (Some(_), None) => More::Ctl,
        (Some(_), Some(_)) => More::Both,
    }
}

/// The message that the parts which stay of a message make.
fn remainder(m: &Message, ctl: Option<Bytes>, dat: Option<Bytes>) -> Option<Message>
    requires { is_some ctl ≡ true → is_some m.now.ctl ≡ true }
    ensures { result ≡ remainder m.now ctl dat }
{
    if ctl.is_some() {
        return Some(Message {
            kind: m.kind,
            band: m.band,
            ctl,
            dat,
        });
    }
    dat.map(|dat| Message::of_bytes(m.band, dat))
}

impl Cut {
    /// Cuts a message at the most bytes of each part, none where the part is not asked for. The message stays
    /// as it is.
    ///
    /// Fails only when memory runs out.
    pub fn of(
        alloc: Global,
        m: &Message,
        maxctl: Option<u16>,
        maxdat: Option<u16>,
    ) -> Result<Self, NoMem>
        ensures { IfOk result (λ cut. cut ≡ cut_of m.now maxctl maxdat) }
    {
        let ctl = left_of(alloc, maxctl, &m.ctl)?;
        let dat = left_of(alloc, maxdat, &m.dat)?;
        Ok(Cut {
            ctl: given(alloc, maxctl, &m.ctl)?,
            dat: given(alloc, maxdat, &m.dat)?,
            more: more_of(&ctl, &dat),
            rest: remainder(m, ctl, dat),
        })
    }
}
