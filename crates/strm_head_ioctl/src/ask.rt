//! Nread, canput, ckband and getband: questions, which change nothing and take no memory.
ghost use Rattle.std.specs.Prelude.{◌≡◌, true, is_some, slice_get};
ghost use Rattle.strm_msg.specs.Message.{part_len};
ghost use Rattle.strm_chain_ends.specs.Image.{end_of};
ghost use Rattle.strm_head_calls.specs.Refusal.{first_that_holds};
ghost use Rattle.strm_head_ioctl.specs.Ask.{nread_effect, canput_effect, ckband_effect, getband_effect, getband_refusals};

use strm_chain::Chain;
use strm_head_calls::{Refusal, Reply};
use strm_module::ModuleOf;
use strm_msg::{End, Message};

/// The number of data bytes of a message.
fn data_len(m: &Message) -> u64
    ensures { result ≡ part_len m.now.dat }
{
    match &m.dat {
        Some(dat) => dat.len() as u64,
        None => 0,
    }
}

/// Returns the number of messages that wait at the head, and the number of data bytes of the first of them
/// (streamio(7), I_NREAD).
pub fn nread<M: ModuleOf>(chain: &Chain<M>, end: End) -> Reply
    ensures { result ≡ (nread_effect chain.now.image end).reply }
{
    let head = chain.head(end);
    let bytes = match head.first() {
        Some(first) => data_len(first),
        None => 0,
    };
    Reply::Nread {
        messages: head.len() as u64,
        bytes,
    }
}

/// Returns whether an ordinary message of a band could be sent: the first write queue is not full in it
/// (streamio(7), I_CANPUT).
pub fn canput<M: ModuleOf>(chain: &Chain<M>, end: End, band: u8) -> Reply
    ensures { result ≡ (canput_effect chain.now.image end band).reply }
{
    Reply::Canput {
        can: !chain.full_ahead(end, band),
    }
}

/// Returns whether an ordinary message of a band waits at the head (streamio(7), I_CKBAND).
pub fn ckband<M: ModuleOf>(chain: &Chain<M>, end: End, band: u8) -> Reply
    ensures { result ≡ (ckband_effect chain.now.image end band).reply }
{
    Reply::Ckband {
        waits: chain.head(end).has_band(band),
    }
}

/// The refusal of a getband's own: ENODATA where no message waits at the head (streamio(7),
/// I_GETBAND).
pub fn getband_refusal<M: ModuleOf>(chain: &Chain<M>, end: End) -> Option<Refusal>
    ensures { result ≡ first_that_holds (getband_refusals chain.now.image end) }
{
    match chain.head(end).first() {
        Some(_) => None,
        None => Some(Refusal::NoMessage),
    }
}

/// Returns the band of the first message at the head, 0 for a high one (streamio(7), I_GETBAND). To be called
/// where a message waits.
pub fn getband<M: ModuleOf>(chain: &Chain<M>, end: End) -> Reply
    requires { is_some (slice_get (end_of chain.now.image end).head 0) ≡ true }
    ensures { result ≡ (getband_effect chain.now.image end).reply }
{
    let first = chain.head(end).first().unwrap();
    Reply::Getband {
        band: u64::from(first.band),
    }
}
