//! The calls of a script, by their fields.
ghost use Rattle.std.specs.Prelude.{◌≡◌, true, false, IsErrOf};
ghost use Rattle.strm_script_text.specs.Text.{texts_of};
ghost use Rattle.strm_script_words.specs.Fault.{Gives, Tells};
ghost use Rattle.strm_script_words.specs.Service.{is_service};
ghost use Rattle.strm_script_words.specs.Table as table;

use crate::fault::{Cause, ReadError};
use crate::field::{maximum_at, optional_at, part_at, u8_at, u16_at, u32_at};
use crate::keyword::keyword_at;
use crate::kinds::{PlayModule, ReadKind, shape_at};
use crate::service::service_at;
use crate::verb::Verb;
use std::alloc::Global;
use strm_head_calls::Request;
use strm_module::{BoxedModule, Instance, ModuleOf};

/// Reads `putmsg CTL DAT FLAG`.
fn putmsg<M: ModuleOf>(alloc: Global, texts: &[&[u8]]) -> Result<Request<BoxedModule<M>>, ReadError>
    ensures { Gives table.asked_of result (table.told_at Verb.Putmsg (texts_of texts.now)) }
{
    let [ctl, dat, flag] = texts else {
        return Err(ReadError::Fault(Cause::Fields));
    };
    let ctl = optional_at(alloc, ctl)?;
    let dat = optional_at(alloc, dat)?;
    let flag = keyword_at(flag)?;
    Ok(Request::putmsg(alloc, ctl, dat, flag)?)
}

/// Reads `putpmsg CTL DAT BAND FLAG`.
fn putpmsg<M: ModuleOf>(
    alloc: Global,
    texts: &[&[u8]],
) -> Result<Request<BoxedModule<M>>, ReadError>
    ensures { Gives table.asked_of result (table.told_at Verb.Putpmsg (texts_of texts.now)) }
{
    let [ctl, dat, band, flag] = texts else {
        return Err(ReadError::Fault(Cause::Fields));
    };
    let ctl = optional_at(alloc, ctl)?;
    let dat = optional_at(alloc, dat)?;
    let band = u8_at(band)?;
    let flag = keyword_at(flag)?;
    Ok(Request::putpmsg(alloc, ctl, dat, band, flag)?)
}

/// Reads `getmsg MAXCTL MAXDAT FLAG`.
fn getmsg<M: ModuleOf>(texts: &[&[u8]]) -> Result<Request<BoxedModule<M>>, Cause>
    ensures { Tells table.asked_of result (table.told_at Verb.Getmsg (texts_of texts.now)) }
{
    let [maxctl, maxdat, flag] = texts else {
        return Err(Cause::Fields);
    };
    let maxctl = maximum_at(maxctl)?;
    let maxdat = maximum_at(maxdat)?;
    let flag = keyword_at(flag)?;
    Ok(Request::Getmsg {
        maxctl,
        maxdat,
        flag,
    })
}

/// Reads `getpmsg MAXCTL MAXDAT BAND FLAG`.
fn getpmsg<M: ModuleOf>(texts: &[&[u8]]) -> Result<Request<BoxedModule<M>>, Cause>
    ensures { Tells table.asked_of result (table.told_at Verb.Getpmsg (texts_of texts.now)) }
{
    let [maxctl, maxdat, band, flag] = texts else {
        return Err(Cause::Fields);
    };
    let maxctl = maximum_at(maxctl)?;
    let maxdat = maximum_at(maxdat)?;
    let band = u8_at(band)?;
    let flag = keyword_at(flag)?;
    Ok(Request::Getpmsg {
        maxctl,
        maxdat,
        band,
        flag,
    })
}

/// Reads `read MAX`.
fn read<M: ModuleOf>(texts: &[&[u8]]) -> Result<Request<BoxedModule<M>>, Cause>
    ensures { Tells table.asked_of result (table.told_at Verb.Read (texts_of texts.now)) }
{
    let [max] = texts else {
        return Err(Cause::Fields);
    };
    let max = u16_at(max)?;
    Ok(Request::Read { max })
}

/// Reads `write DAT`.
fn write<M: ModuleOf>(alloc: Global, texts: &[&[u8]]) -> Result<Request<BoxedModule<M>>, ReadError>
    ensures { Gives table.asked_of result (table.told_at Verb.Write (texts_of texts.now)) }
{
    let [dat] = texts else {
        return Err(ReadError::Fault(Cause::Fields));
    };
    let dat = part_at(alloc, dat)?;
    Ok(Request::Write { dat })
}

/// Reads `find NAME`.
fn find<M: ModuleOf>(alloc: Global, texts: &[&[u8]]) -> Result<Request<BoxedModule<M>>, ReadError>
    ensures { Gives table.asked_of result (table.told_at Verb.Find (texts_of texts.now)) }
{
    let [name] = texts else {
        return Err(ReadError::Fault(Cause::Fields));
    };
    let name = part_at(alloc, name)?;
    Ok(Request::Find { name })
}

/// Reads `str CMD DAT`.
fn str<M: ModuleOf>(alloc: Global, texts: &[&[u8]]) -> Result<Request<BoxedModule<M>>, ReadError>
    ensures { Gives table.asked_of result (table.told_at Verb.Str (texts_of texts.now)) }
{
    let [cmd, dat] = texts else {
        return Err(ReadError::Fault(Cause::Fields));
    };
    let cmd = u32_at(cmd)?;
    let dat = optional_at(alloc, dat)?;
    Ok(Request::Str { cmd, dat })
}

/// Reads `strput CMD DAT`.
fn strput<M: ModuleOf>(alloc: Global, texts: &[&[u8]]) -> Result<Request<BoxedModule<M>>, ReadError>
    ensures { Gives table.asked_of result (table.told_at Verb.Strput (texts_of texts.now)) }
{
    let [cmd, dat] = texts else {
        return Err(ReadError::Fault(Cause::Fields));
    };
    let cmd = u32_at(cmd)?;
    let dat = optional_at(alloc, dat)?;
    Ok(Request::Strput { cmd, dat })
}

/// Reads `strget drop|keep`.
fn strget<M: ModuleOf>(texts: &[&[u8]]) -> Result<Request<BoxedModule<M>>, Cause>
    ensures { Tells table.asked_of result (table.told_at Verb.Strget (texts_of texts.now)) }
{
    let [drops] = texts else {
        return Err(Cause::Fields);
    };
    let drops = keyword_at(drops)?;
    Ok(Request::Strget { drops })
}

/// Reads `flush SIDES`.
fn flush<M: ModuleOf>(texts: &[&[u8]]) -> Result<Request<BoxedModule<M>>, Cause>
    ensures { Tells table.asked_of result (table.told_at Verb.Flush (texts_of texts.now)) }
{
    let [sides] = texts else {
        return Err(Cause::Fields);
    };
    let (r, w) = keyword_at(sides)?;
    Ok(Request::Flush { r, w })
}

/// Reads `flushband BAND SIDES`.
fn flush_band<M: ModuleOf>(texts: &[&[u8]]) -> Result<Request<BoxedModule<M>>, Cause>
    ensures { Tells table.asked_of result (table.told_at Verb.FlushBand (texts_of texts.now)) }
{
    let [band, sides] = texts else {
        return Err(Cause::Fields);
    };
    let band = u8_at(band)?;
    let (r, w) = keyword_at(sides)?;
    Ok(Request::FlushBand { band, r, w })
}

/// Reads `peek MAXCTL MAXDAT FLAG`.
fn peek<M: ModuleOf>(texts: &[&[u8]]) -> Result<Request<BoxedModule<M>>, Cause>
    ensures { Tells table.asked_of result (table.told_at Verb.Peek (texts_of texts.now)) }
{
    let [maxctl, maxdat, flag] = texts else {
        return Err(Cause::Fields);
    };
    let maxctl = maximum_at(maxctl)?;
    let maxdat = maximum_at(maxdat)?;
    let flag = keyword_at(flag)?;
    Ok(Request::Peek {
        maxctl,
        maxdat,
        flag,
    })
}

/// Reads `setread MODE PROT`.
fn set_read<M: ModuleOf>(texts: &[&[u8]]) -> Result<Request<BoxedModule<M>>, Cause>
    ensures { Tells table.asked_of result (table.told_at Verb.SetRead (texts_of texts.now)) }
{
    let [mode, prot] = texts else {
        return Err(Cause::Fields);
    };
    let mode = keyword_at(mode)?;
    let prot = keyword_at(prot)?;
    Ok(Request::SetRead { mode, prot })
}

/// Reads `canput BAND`.
fn canput<M: ModuleOf>(texts: &[&[u8]]) -> Result<Request<BoxedModule<M>>, Cause>
    ensures { Tells table.asked_of result (table.told_at Verb.Canput (texts_of texts.now)) }
{
    let [band] = texts else {
        return Err(Cause::Fields);
    };
    let band = u8_at(band)?;
    Ok(Request::Canput { band })
}

/// Reads `ckband BAND`.
fn ckband<M: ModuleOf>(texts: &[&[u8]]) -> Result<Request<BoxedModule<M>>, Cause>
    ensures { Tells table.asked_of result (table.told_at Verb.Ckband (texts_of texts.now)) }
{
    let [band] = texts else {
        return Err(Cause::Fields);
    };
    let band = u8_at(band)?;
    Ok(Request::Ckband { band })
}

/// Reads `tick TICKS`.
fn tick<M: ModuleOf>(texts: &[&[u8]]) -> Result<Request<BoxedModule<M>>, Cause>
    ensures { Tells table.asked_of result (table.told_at Verb.Tick (texts_of texts.now)) }
{
    let [ticks] = texts else {
        return Err(Cause::Fields);
    };
    let ticks = u32_at(ticks)?;
    Ok(Request::Tick { ticks })
}

/// Reads `push KIND NAME RD WR` and the fields of the kind. The module is made with its object.
fn push<M: PlayModule>(
    alloc: Global,
    serial: u64,
    texts: &[&[u8]],
) -> Result<Request<BoxedModule<M>>, ReadError>
where
    M::Kind: ReadKind,
    ensures { Gives table.asked_of result (table.request_at M.Kind.words serial Verb.Push (texts_of texts.now)) }
{
    let shape = shape_at(alloc, serial, texts)?;
    let object = M::object(alloc, &shape)?;
    let instance = BoxedModule::new(alloc, Instance::new(shape, object))?;
    Ok(Request::Push { instance })
}

/// Reads a call without fields. Refused if there is a field.
fn plain<M: ModuleOf>(
    texts: &[&[u8]],
    request: Request<BoxedModule<M>>,
) -> Result<Request<BoxedModule<M>>, Cause>
    ensures { Tells table.asked_of result (table.plain_at (table.asked_of request) (texts_of texts.now)) }
{
    match texts {
        [] => Ok(request),
        _ => Err(Cause::Fields),
    }
}

/// The request of a call that has no part and is no push.
fn bare_at<M: ModuleOf>(verb: Verb, texts: &[&[u8]]) -> Result<Request<BoxedModule<M>>, Cause>
    requires memory { table.takes_memory verb ≡ false }
    requires told { is_service verb ≡ false }
    ensures { Tells table.asked_of result (table.told_at verb (texts_of texts.now)) }
{
    match verb {
        Verb::Getmsg => getmsg(texts),
        Verb::Getpmsg => getpmsg(texts),
        Verb::Read => read(texts),
        Verb::Pop => plain(texts, Request::Pop),
        Verb::Look => plain(texts, Request::Look),
        Verb::List => plain(texts, Request::List),
        Verb::Strget => strget(texts),
        Verb::Flush => flush(texts),
        Verb::FlushBand => flush_band(texts),
        Verb::Nread => plain(texts, Request::Nread),
        Verb::Peek => peek(texts),
        Verb::SetRead => set_read(texts),
        Verb::GetRead => plain(texts, Request::GetRead),
        Verb::Canput => canput(texts),
        Verb::Ckband => ckband(texts),
        Verb::Getband => plain(texts, Request::Getband),
        Verb::Close => plain(texts, Request::Close),
        Verb::Take => plain(texts, Request::Take),
        Verb::Tick => tick(texts),
        Verb::Poll => plain(texts, Request::Poll),
        _ => unreachable!(),
    }
}

/// The request of a call, by its fields behind NAME:END. The module of a push gets the serial. Refused for a
/// wrong number of fields, then for the first field with a fault; and when memory runs out, if a field is a
/// part, the call is a push or it sends a message.
pub fn request_at<M: PlayModule>(
    alloc: Global,
    serial: u64,
    verb: Verb,
    texts: &[&[u8]],
) -> Result<Request<BoxedModule<M>>, ReadError>
where
    M::Kind: ReadKind,
    ensures asked { Gives table.asked_of result (table.request_at M.Kind.words serial verb (texts_of texts.now)) }
    ensures memory { IsErrOf result ReadError.Memory → table.takes_memory verb ≡ true }
{
    match verb {
        Verb::Putmsg => putmsg(alloc, texts),
        Verb::Putpmsg => putpmsg(alloc, texts),
        Verb::Write => write(alloc, texts),
        Verb::Push => push(alloc, serial, texts),
        Verb::Find => find(alloc, texts),
        Verb::Str => str(alloc, texts),
        Verb::Strput => strput(alloc, texts),
        Verb::Getq | Verb::Putbq | Verb::Putnext | Verb::Bcanputnext | Verb::Qsize => {
            service_at(alloc, verb, texts)
        }
        bare => Ok(bare_at(bare, texts)?),
    }
}
